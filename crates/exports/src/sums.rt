// Sums over the states of a design as C callers have them: a sum is told as its digits and its exponent.
ghost use Rattle.std.specs.Prelude.{◌≡◌, None};
ghost use Rattle.reply.specs.Figures.{refused_with};
ghost use Rattle.reply.specs.declared.Refusal.TheVariants.{WrongSize};
ghost use Rattle.design.specs.Design.{strands};
ghost use Rattle.fractions.specs.Weight.{weight};
ghost use Rattle.partition.specs.Sum.{zero_weight};
ghost use Rattle.state_sums.specs.Sizes.{weights_lent, lists_lent};
ghost use Rattle.state_sums.specs.Answers.{sum_figures, free_answer, constrained_answer};
ghost use Rattle.exports.specs.Sums.{FreeTold, ConstrainedTold};
ghost use Rattle.exports.specs.Told.{Told};

use super::answers::tell;
use design::Design;
use fractions::Weight;
use reply::{Refusal, Refused};
use state_sums::{LentLists, LentWeights};

// A sum: its digits and its exponent, both 0 for zero.
pub(crate) fn tell_sum(
    answer: Result<Weight, Refused>,
    place: &mut u64,
    digits: &mut u32,
    power: &mut i32,
) -> u32
    ensures { Told (sum_figures answer) result place.new (weight digits.new power.new) }
{
    let mut sum = Weight::default();
    let number = tell(answer, sum, place, &mut sum);
    *digits = sum.digits;
    *power = sum.power;
    number
}

// What a sum tells where the number of the amounts says nothing.
pub fn tell_unnamed_sum(place: &mut u64, digits: &mut u32, power: &mut i32) -> u32
    ensures { Told (refused_with zero_weight WrongSize None) result place.new (weight digits.new power.new) }
{
    tell_sum(Err(Refusal::WrongSize.into()), place, digits, power)
}

// The sum over all states.
pub fn mj_free_sum(
    design: &Design,
    weights: &LentWeights<'_>,
    place: &mut u64,
    digits: &mut u32,
    power: &mut i32,
) -> u32
    ensures told { Told (free_answer design.now (weights_lent (strands design.now) weights.now)) result place.new (weight digits.new power.new) }
    ensures free_told { FreeTold design.now (weights_lent (strands design.now) weights.now) result (weight digits.new power.new) }
{
    tell_sum(state_sums::free_sum(design, weights), place, digits, power)
}

// The sum over the states that lists of allowed occupants leave.
pub fn mj_constrained_sum(
    design: &Design,
    weights: &LentWeights<'_>,
    lists: &LentLists<'_>,
    place: &mut u64,
    digits: &mut u32,
    power: &mut i32,
) -> u32
    ensures told { Told (constrained_answer design.now (weights_lent (strands design.now) weights.now) (lists_lent lists.now)) result place.new (weight digits.new power.new) }
    ensures constrained_told { ConstrainedTold design.now (weights_lent (strands design.now) weights.now) (lists_lent lists.now) result (weight digits.new power.new) }
{
    tell_sum(
        state_sums::constrained_sum(design, weights, lists),
        place,
        digits,
        power,
    )
}
