// The left choices where friends are many: the least sums of all right strands come first, eight at a time, whose bonds with a left entry lie side by
// side; the entry that has the least is then found from the end.
ghost use Rattle.std.specs.Prelude.{◌≡◌, ℕ, ◌+◌, ◌<◌, ◌≤◌, length, get_or, Float};
ghost use Rattle.std.specs.Float.Ieee as Ieee;
ghost use Rattle.std.specs.Float.{binary64, nan};
ghost use Rattle.doubles.specs.Least.{last_least};
ghost use Rattle.ensemble.specs.inner.Entries.{Known, table_bond, Keys, lesser, LeastSum, LeastSums, Attachments, Low};

use super::attach::Entries;
use reply::limits::STRANDS;
use std::simd::prelude::*;

// An energy plus each of eight bonds of a row, from a right strand on.
fn eight_sums(energy: f64, bonds: &[f64], right: usize) -> f64x8
    requires { right + 8 ≤ length bonds.now }
    ensures { (lane : ℕ) → lane < 8 → get_or result lane nan ≡ Ieee.add binary64 energy (get_or bonds.now (right + lane) nan) }
{
    f64x8::splat(energy) + f64x8::from_slice(&bonds[right..])
}

// The lesser of each two, the second of equals.
fn eight_lesser(least: f64x8, sum: f64x8) -> f64x8
    ensures { (lane : ℕ) → lane < 8 → get_or result lane nan ≡ lesser (get_or least lane nan) (get_or sum lane nan) }
{
    least.simd_lt(sum).select(least, sum)
}

// The least of the left energies plus the strand bond, for eight right strands side by side. They are kept together over all left entries, as the compiler
// does of no loop over doubles that compares them one by one.
fn eight_least(left: &Entries, right: usize) -> f64x8
    requires some { 0 < length left.now.options.now }
    requires room { right + 8 ≤ left.now.bonds.strands }
    ensures { (lane : ℕ) → lane < 8 → LeastSum (table_bond left.now.bonds.strands left.now.bonds.cells.now) left.now.options.now left.now.energies.now (length left.now.options.now) (right + lane) (get_or result lane nan) }
{
    let mut least = eight_sums(left.energies[0], left.bonds.row(left.options[0]), right);
    for (strand, energy) in left.options[1..].iter().zip(&left.energies[1..]) {
        let sum = eight_sums(*energy, left.bonds.row(*strand), right);
        least = eight_lesser(least, sum);
    }
    least
}

// Stores eight leasts from a right strand on.
fn put_eight(least: f64x8, right: usize, best: &mut [f64; STRANDS])
    requires { right + 8 ≤ 64 }
    ensures put { (lane : ℕ) → lane < 8 → get_or best.new (right + lane) nan ≡ get_or least lane nan }
    ensures below { (r : ℕ) → r < right → get_or best.new r nan ≡ get_or best.old r nan }
{
    least.copy_to_slice(&mut best[right..]);
}

// The least of the left energies plus the strand bond, for each right strand: eight by eight, the last eight up to the last strand.
fn least_sums(left: &Entries, best: &mut [f64; STRANDS])
    requires some { 0 < length left.now.options.now }
    requires eight { 8 ≤ left.now.bonds.strands }
    ensures { LeastSums (table_bond left.now.bonds.strands left.now.bonds.cells.now) left.now.options.now left.now.energies.now left.now.bonds.strands (length left.now.options.now) best.new }
{
    for eight in 0..left.bonds.strands / 8 {
        let right = 8 * eight;
        put_eight(eight_least(left, right), right, best);
    }
    let last = left.bonds.strands - 8;
    put_eight(eight_least(left, last), last, best);
}

// The last left entry whose energy plus the strand bond is not above the least: the left choice.
fn last_least(left: &Entries, right: usize, least: f64) -> u8
    requires { right < left.now.bonds.strands }
    ensures choice { (key : ℕ → Float) → Keys (table_bond left.now.bonds.strands left.now.bonds.cells.now) left.now.options.now left.now.energies.now right key → least ≡ key (last_least key left.now.options.now) → result ≡ last_least key left.now.options.now }
    ensures known { result < left.now.bonds.strands }
{
    // No `find`: its closure would need a clause on the bonds that it reads.
    for (k, strand) in left.options.iter().enumerate().rev() {
        if !(least < left.energies[k] + left.bonds.between(*strand, right)) {
            return *strand;
        }
    }
    0
}

// The least sums of all right strands at once, then the left choice of each friend.
pub(crate) fn attach_all(
    left: &Entries,
    friends: &[u8],
    best: &mut [f64; STRANDS],
    choice: &mut [u8; STRANDS],
)
    requires known { Known left.now.bonds.strands friends.now }
    requires low { Low choice.old }
    requires left_nonzero { 0 < length left.now.options.now }
    requires eight { 8 ≤ left.now.bonds.strands }
    ensures { Attachments (table_bond left.now.bonds.strands left.now.bonds.cells.now) left.now.options.now left.now.energies.now friends.now (length friends.now) best.new choice.new }
{
    least_sums(left, best);
    for friend in friends {
        let right = usize::from(*friend);
        choice[right] = last_least(left, right, best[right]);
    }
}
