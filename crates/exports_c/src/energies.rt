// Sums over the weights of a design's own energies and the probability of a constrained set as C functions, and the exponential of one double. A weight
// is told as its digits and its exponent.

ghost use Rattle.std.specs.Prelude.{◌≡◌};
ghost use Rattle.std.specs.Float.Ieee as Ieee;
ghost use Rattle.std.specs.Float.{binary64};
ghost use Rattle.fractions.specs.Weight.{weight};
ghost use Rattle.probabilities.specs.Double.{double_of};
ghost use Rattle.state_sums.specs.Sizes.{lent_lists};
ghost use Rattle.exports.specs.Lent.{amounts_numbered, lent_at};
ghost use Rattle.exports.specs.Energies.{FreeEnergyTold, ConstrainedEnergyTold, ProbabilityTold, ExpTold, NearIn, OccupantsIn};

use design::Design;
use exports::designs::ambient;
use exports::lent::{amounts_of, tell_unnamed};
use exports::sums::tell_unnamed_sum;
use state_sums::LentLists;

// The exponential of a double.
#[unsafe(no_mangle)]
pub extern "C" fn mj_exp(x: f64, digits: &mut u32, power: &mut i32) -> u32
    ensures { ExpTold x result (weight digits.new power.new) }
{
    exports::energies::mj_exp(x, digits, power)
}

// The sum over all states.
#[unsafe(no_mangle)]
pub extern "C" fn mj_free_sum_of_energies(
    scaffold: &[u8],
    marks: &[u8],
    glues: &[u8],
    dg: &[f64],
    ds: &[f64],
    amounts: &[f64],
    given: u32,
    rt: f64,
    strand_excess: f64,
    scaffold_excess: f64,
    place: &mut u64,
    digits: &mut u32,
    power: &mut i32,
) -> u32
    ensures { NearIn (lent_at scaffold.entry marks.entry glues.entry dg.entry ds.entry amounts.entry (amounts_numbered given) rt strand_excess scaffold_excess) FreeEnergyTold result place.new (weight digits.new power.new) }
{
    let Some(given) = amounts_of(given) else {
        return tell_unnamed_sum(place, digits, power);
    };
    let design = Design {
        scaffold,
        marks,
        glues,
        dg,
        ds,
        amounts,
        given,
        ambient: ambient(rt, strand_excess, scaffold_excess),
    };
    exports::energies::mj_free_sum_of_energies(&design, place, digits, power)
}

// The sum over the states that lists of allowed occupants leave.
#[unsafe(no_mangle)]
pub extern "C" fn mj_constrained_sum_of_energies(
    scaffold: &[u8],
    marks: &[u8],
    glues: &[u8],
    dg: &[f64],
    ds: &[f64],
    amounts: &[f64],
    given: u32,
    rt: f64,
    strand_excess: f64,
    scaffold_excess: f64,
    numbers: &[u8],
    starts: &[usize],
    lengths: &[usize],
    place: &mut u64,
    digits: &mut u32,
    power: &mut i32,
) -> u32
    ensures { NearIn (lent_at scaffold.entry marks.entry glues.entry dg.entry ds.entry amounts.entry (amounts_numbered given) rt strand_excess scaffold_excess) (λ d. ConstrainedEnergyTold d (lent_lists numbers.entry starts.entry lengths.entry)) result place.new (weight digits.new power.new) }
{
    let Some(given) = amounts_of(given) else {
        return tell_unnamed_sum(place, digits, power);
    };
    let design = Design {
        scaffold,
        marks,
        glues,
        dg,
        ds,
        amounts,
        given,
        ambient: ambient(rt, strand_excess, scaffold_excess),
    };
    let lists = LentLists {
        numbers,
        starts,
        lengths,
    };
    exports::energies::mj_constrained_sum_of_energies(&design, &lists, place, digits, power)
}

// The probability of these states.
#[unsafe(no_mangle)]
pub extern "C" fn mj_probability(
    scaffold: &[u8],
    marks: &[u8],
    glues: &[u8],
    dg: &[f64],
    ds: &[f64],
    amounts: &[f64],
    given: u32,
    rt: f64,
    strand_excess: f64,
    scaffold_excess: f64,
    numbers: &[u8],
    starts: &[usize],
    lengths: &[usize],
    place: &mut u64,
    digits: &mut u32,
    power: &mut i32,
) -> u32
    ensures { NearIn (lent_at scaffold.entry marks.entry glues.entry dg.entry ds.entry amounts.entry (amounts_numbered given) rt strand_excess scaffold_excess) (λ d. ProbabilityTold d (lent_lists numbers.entry starts.entry lengths.entry)) result place.new (weight digits.new power.new) }
{
    let Some(given) = amounts_of(given) else {
        return tell_unnamed_sum(place, digits, power);
    };
    let design = Design {
        scaffold,
        marks,
        glues,
        dg,
        ds,
        amounts,
        given,
        ambient: ambient(rt, strand_excess, scaffold_excess),
    };
    let lists = LentLists {
        numbers,
        starts,
        lengths,
    };
    exports::energies::mj_probability(&design, &lists, place, digits, power)
}

// The probability of each occupant at each position, into a cell of its own.
#[unsafe(no_mangle)]
pub extern "C" fn mj_occupants(
    scaffold: &[u8],
    marks: &[u8],
    glues: &[u8],
    dg: &[f64],
    ds: &[f64],
    amounts: &[f64],
    given: u32,
    rt: f64,
    strand_excess: f64,
    scaffold_excess: f64,
    digits: &mut [u32],
    powers: &mut [i32],
    place: &mut u64,
) -> u32
    ensures { OccupantsIn (lent_at scaffold.entry marks.entry glues.entry dg.entry ds.entry amounts.entry (amounts_numbered given) rt strand_excess scaffold_excess) digits.old powers.old result place.new digits.new powers.new }
{
    let Some(given) = amounts_of(given) else {
        return tell_unnamed((), place, &mut ());
    };
    let design = Design {
        scaffold,
        marks,
        glues,
        dg,
        ds,
        amounts,
        given,
        ambient: ambient(rt, strand_excess, scaffold_excess),
    };
    exports::energies::mj_occupants(&design, digits, powers, place)
}

// A weight as the bits of a double.
#[unsafe(no_mangle)]
pub extern "C" fn mj_weight(digits: u32, power: i32) -> u64
    ensures { result ≡ Ieee.to_bits binary64 (double_of (weight digits power)) }
{
    exports::energies::mj_weight(digits, power)
}
