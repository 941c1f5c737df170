// The sums over the states that have each occupant at each position, by a pass from either end: what can stand before one, times it with what can follow.
ghost use Rattle.std.specs.Prelude.{◌≡◌, ◌⊎◌, ℕ, ◌+◌, ◌*◌, ◌^◌, ◌<◌, ◌≤◌, length};
ghost use Rattle.partition.specs.Weights.{weight_at};
ghost use Rattle.partition.specs.Summed.{occupant_sum_at, sum_at};
ghost use Rattle.partition.specs.inner.Used.{Fit};
ghost use Rattle.partition_sums.specs.Layout.{options_of, weights_of};
ghost use Rattle.partition_sums.specs.inner.Rows as Rows;
ghost use Rattle.partition_sums.specs.inner.Rows.{row_term, Leads, Before, Through, Stored, SummedTo, TotalsTo, celled_term};

use super::lent::{Formed, Lent, ONE};
use super::rows::{last_row, row_before, sum_terms};
use super::terms::{lowered, term_times};
use fractions::Weight;
use partition::Term;
use reply::limits::{POSITIONS, STRANDS};

// Writes a weight for each strand into the cells of one position, which begin at `first`.
fn fill_row<F: Fn(u8) -> Weight>(
    weight: F,
    first: usize,
    strands: usize,
    digits: &mut [u32],
    powers: &mut [i32],
)
    requires callable { (x : ℕ) → x < strands → F.pre weight x }
    requires few { strands ≤ 64 }
    requires digits_in_bounds { first + strands ≤ length digits.old }
    requires powers_in_bounds { first + strands ≤ length powers.old }
    ensures digits_len { length digits.new ≡ length digits.old }
    ensures powers_len { length powers.new ≡ length powers.old }
    ensures filled { (x : ℕ) → x < strands → F.post weight x (weight_at digits.new powers.new (first + x)) }
    ensures kept { (cell : ℕ) → (cell < first) ⊎ (first + strands ≤ cell) → weight_at digits.new powers.new cell ≡ weight_at digits.old powers.old cell }
{
    // By number: nothing is known of what is written through a `zip` of `iter_mut`.
    for strand in 0..strands {
        let weight = weight(strand as u8);
        digits[first + strand] = weight.digits;
        powers[first + strand] = weight.power;
    }
}

// A term of a row as a cell holds it. Where no option stands the row may hold anything, and so may the cell.
fn celled(row: &[Term; STRANDS], strand: u8) -> Weight
    requires { strand < 64 }
    ensures { Fit (2 ^ 30) (row_term row.now strand) → result ≡ celled_term (row_term row.now strand) }
{
    let t = row[usize::from(strand)];
    Weight {
        digits: (t.digits % 0x1_0000_0000) as u32,
        power: (t.power % 0x8000_0000) as i32,
    }
}

// Writes the terms of the pass into the cells of each position, those of its options.
fn fill_terms(formed: &Formed<'_, '_>, digits: &mut [u32], powers: &mut [i32])
    requires digits_in_bounds { length formed.now.lent.options.counts.now * formed.now.lent.weights.strands ≤ length digits.old }
    requires powers_in_bounds { length formed.now.lent.options.counts.now * formed.now.lent.weights.strands ≤ length powers.old }
    ensures digits_len { length digits.new ≡ length digits.old }
    ensures powers_len { length powers.new ≡ length powers.old }
    ensures stored { Stored formed.now.lent 0 digits.new powers.new }
{
    let positions = formed.lent.options.counts.len();
    let strands = formed.lent.weights.strands;
    let mut row = last_row(formed);
    fill_row(
        |x| celled(&row, x),
        (positions - 1) * strands,
        strands,
        digits,
        powers,
    );
    // By number: a row is asked for by its position.
    for position in (0..positions - 1).rev() {
        row = row_before(formed, position, &row);
        fill_row(
            |x| celled(&row, x),
            position * strands,
            strands,
            digits,
            powers,
        );
    }
}

// The term of a left occupant with all that can stand before it, times its place's factor and the pair's.
#[tactic(auto, unfolding(crate::specs::inner::Rows::led))]
fn led(lent: &Lent<'_, '_>, row: &[Term; STRANDS], position: usize, right: u8, left: u8) -> Term
    requires position_in_bounds { position < length lent.now.options.counts.now }
    requires leads { Leads (weights_of lent.now.weights) row.now position left right }
    ensures { result ≡ Rows.led (weights_of lent.now.weights) row.now position right left }
{
    let place = term_times(row[usize::from(left)], lent.place_factor(position, left));
    term_times(place, lent.pair_factor(left, right))
}

// The row of what can stand before the options of the next position, from that of this one.
fn row_after(formed: &Formed<'_, '_>, position: usize, row: &[Term; STRANDS]) -> [Term; STRANDS]
    requires next_in_bounds { position + 1 < length formed.now.lent.options.counts.now }
    requires here { Before formed.now.lent position row.now }
    ensures { Before formed.now.lent (position + 1) result }
{
    let lent = &formed.lent;
    let here = lent.options.of(position);
    let mut next_row = [Term::default(); STRANDS];
    for x in lent.options.of(position + 1) {
        let sum = sum_terms(here, |left| led(lent, row, position, *x, left));
        next_row[usize::from(*x)] = sum;
    }
    next_row
}

// The row of the sums over the states that have each option of a position: what can stand before it times the cell's term.
fn row_through(
    formed: &Formed<'_, '_>,
    position: usize,
    before: &[Term; STRANDS],
    digits: &[u32],
    powers: &[i32],
) -> [Term; STRANDS]
    requires position_in_bounds { position < length formed.now.lent.options.counts.now }
    requires before { Before formed.now.lent position before.now }
    requires stored { Stored formed.now.lent position digits.now powers.now }
    requires digits_in_bounds { length formed.now.lent.options.counts.now * formed.now.lent.weights.strands ≤ length digits.now }
    requires powers_in_bounds { length formed.now.lent.options.counts.now * formed.now.lent.weights.strands ≤ length powers.now }
    ensures { Through formed.now.lent position result }
{
    let lent = &formed.lent;
    let first = position * lent.weights.strands;
    let mut row = [Term::default(); STRANDS];
    for x in lent.options.of(position) {
        let strand = usize::from(*x);
        let after = Term {
            digits: u64::from(digits[first + strand]),
            power: powers[first + strand] as u64,
        };
        row[strand] = term_times(before[strand], after);
    }
    row
}

// The sum over the states that have a strand at a position: zero where it is no option there.
fn occupant_sum(
    formed: &Formed<'_, '_>,
    position: usize,
    row: &[Term; STRANDS],
    strand: u8,
) -> Weight
    requires position_in_bounds { position < length formed.now.lent.options.counts.now }
    requires strand_in_bounds { strand < 64 }
    requires through { Through formed.now.lent position row.now }
    ensures { result ≡ occupant_sum_at (weights_of formed.now.lent.weights) (options_of formed.now.lent.options) position strand }
{
    let options = &formed.lent.options;
    if options.of(position).contains(&strand) {
        lowered(row[usize::from(strand)], 2 * options.counts.len())
    } else {
        Weight::default()
    }
}

// The sum over all states, by the options of a position.
fn position_sum(formed: &Formed<'_, '_>, position: usize, row: &[Term; STRANDS]) -> Weight
    requires position_in_bounds { position < length formed.now.lent.options.counts.now }
    requires through { Through formed.now.lent position row.now }
    ensures { result ≡ sum_at (weights_of formed.now.lent.weights) (options_of formed.now.lent.options) position }
{
    let options = &formed.lent.options;
    let sum = sum_terms(options.of(position), |x| row[usize::from(x)]);
    lowered(sum, 2 * options.counts.len())
}

// Writes the sum over the states that have each strand at each position, into cells of positions by strands, and gives the sum over all states as it
// comes at each position.
pub fn fill_sums(
    formed: &Formed<'_, '_>,
    digits: &mut [u32],
    powers: &mut [i32],
) -> [Weight; POSITIONS]
    requires digits_in_bounds { length formed.now.lent.options.counts.now * formed.now.lent.weights.strands ≤ length digits.old }
    requires powers_in_bounds { length formed.now.lent.options.counts.now * formed.now.lent.weights.strands ≤ length powers.old }
    ensures digits_len { length digits.new ≡ length digits.old }
    ensures powers_len { length powers.new ≡ length powers.old }
    ensures occupants { SummedTo formed.now.lent (length formed.now.lent.options.counts.now) digits.new powers.new }
    ensures totals { TotalsTo formed.now.lent (length formed.now.lent.options.counts.now) result }
{
    fill_terms(formed, digits, powers);
    let positions = formed.lent.options.counts.len();
    let strands = formed.lent.weights.strands;
    let mut totals = [Weight::default(); POSITIONS];
    let mut before = [ONE; STRANDS];
    for position in 0..positions {
        if 0 < position {
            before = row_after(formed, position - 1, &before);
        }
        let row = row_through(formed, position, &before, digits, powers);
        totals[position] = position_sum(formed, position, &row);
        fill_row(
            |x| occupant_sum(formed, position, &row, x),
            position * strands,
            strands,
            digits,
            powers,
        );
    }
    totals
}
