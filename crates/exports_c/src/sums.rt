// Sums over the states of a design as C functions. Weights are lent as their digits and their exponents, row first, one of each for each position and
// strand, and for each left and right strand; a sum is told in the same two parts.

ghost use Rattle.std.specs.Prelude.{length};
ghost use Rattle.fractions.specs.Weight.{weight};
ghost use Rattle.partition.specs.Sum.{zero_weight};
ghost use Rattle.partition_sums.specs.Layout.{lent_weights};
ghost use Rattle.state_sums.specs.Sizes.{lent_lists};
ghost use Rattle.state_sums.specs.Answers.{free_answer, constrained_answer};
ghost use Rattle.exports.specs.Lent.{amounts_numbered, lent_at, answer_in, SaidIn};
ghost use Rattle.exports.specs.Sums.{FreeTold, ConstrainedTold};
ghost use Rattle.exports.specs.Told.{Told};

use design::Design;
use exports::designs::ambient;
use exports::lent::amounts_of;
use exports::sums::tell_unnamed_sum;
use state_sums::{LentLists, LentWeights};

// The sum over all states.
#[unsafe(no_mangle)]
pub extern "C" fn mj_free_sum(
    scaffold: &[u8],
    marks: &[u8],
    glues: &[u8],
    dg: &[f64],
    ds: &[f64],
    amounts: &[f64],
    given: u32,
    rt: f64,
    strand_excess: f64,
    scaffold_excess: f64,
    place_digits: &[u32],
    place_powers: &[i32],
    pair_digits: &[u32],
    pair_powers: &[i32],
    place: &mut u64,
    digits: &mut u32,
    power: &mut i32,
) -> u32
    ensures told { Told (answer_in (lent_at scaffold.entry marks.entry glues.entry dg.entry ds.entry amounts.entry (amounts_numbered given) rt strand_excess scaffold_excess) zero_weight (λ d. free_answer d (lent_weights (length amounts.now) place_digits.entry place_powers.entry pair_digits.entry pair_powers.entry))) result place.new (weight digits.new power.new) }
    ensures free_told { SaidIn (lent_at scaffold.entry marks.entry glues.entry dg.entry ds.entry amounts.entry (amounts_numbered given) rt strand_excess scaffold_excess) (λ d. FreeTold d (lent_weights (length amounts.now) place_digits.entry place_powers.entry pair_digits.entry pair_powers.entry) result (weight digits.new power.new)) }
{
    let Some(given) = amounts_of(given) else {
        return tell_unnamed_sum(place, digits, power);
    };
    let design = Design {
        scaffold,
        marks,
        glues,
        dg,
        ds,
        amounts,
        given,
        ambient: ambient(rt, strand_excess, scaffold_excess),
    };
    let weights = LentWeights {
        place_digits,
        place_powers,
        pair_digits,
        pair_powers,
    };
    exports::sums::mj_free_sum(&design, &weights, place, digits, power)
}

// The sum over the states that lists of allowed occupants leave.
#[unsafe(no_mangle)]
pub extern "C" fn mj_constrained_sum(
    scaffold: &[u8],
    marks: &[u8],
    glues: &[u8],
    dg: &[f64],
    ds: &[f64],
    amounts: &[f64],
    given: u32,
    rt: f64,
    strand_excess: f64,
    scaffold_excess: f64,
    place_digits: &[u32],
    place_powers: &[i32],
    pair_digits: &[u32],
    pair_powers: &[i32],
    numbers: &[u8],
    starts: &[usize],
    lengths: &[usize],
    place: &mut u64,
    digits: &mut u32,
    power: &mut i32,
) -> u32
    ensures told { Told (answer_in (lent_at scaffold.entry marks.entry glues.entry dg.entry ds.entry amounts.entry (amounts_numbered given) rt strand_excess scaffold_excess) zero_weight (λ d. constrained_answer d (lent_weights (length amounts.now) place_digits.entry place_powers.entry pair_digits.entry pair_powers.entry) (lent_lists numbers.entry starts.entry lengths.entry))) result place.new (weight digits.new power.new) }
    ensures constrained_told { SaidIn (lent_at scaffold.entry marks.entry glues.entry dg.entry ds.entry amounts.entry (amounts_numbered given) rt strand_excess scaffold_excess) (λ d. ConstrainedTold d (lent_weights (length amounts.now) place_digits.entry place_powers.entry pair_digits.entry pair_powers.entry) (lent_lists numbers.entry starts.entry lengths.entry) result (weight digits.new power.new)) }
{
    let Some(given) = amounts_of(given) else {
        return tell_unnamed_sum(place, digits, power);
    };
    let design = Design {
        scaffold,
        marks,
        glues,
        dg,
        ds,
        amounts,
        given,
        ambient: ambient(rt, strand_excess, scaffold_excess),
    };
    let weights = LentWeights {
        place_digits,
        place_powers,
        pair_digits,
        pair_powers,
    };
    let lists = LentLists {
        numbers,
        starts,
        lengths,
    };
    exports::sums::mj_constrained_sum(&design, &weights, &lists, place, digits, power)
}
