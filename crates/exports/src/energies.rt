// Sums over the weights of a design's own energies and the probability of a constrained set as C callers have them, and the exponential of one double:
// each is told as its digits and its exponent.
ghost use Rattle.std.specs.Prelude.{◌≡◌};
ghost use Rattle.std.specs.Float.Ieee as Ieee;
ghost use Rattle.std.specs.Float.{binary64};
ghost use Rattle.fractions.specs.Weight.{weight};
ghost use Rattle.probabilities.specs.Double.{double_of};
ghost use Rattle.state_sums.specs.Sizes.{lists_lent};
ghost use Rattle.exports.specs.Energies.{FreeEnergyTold, ConstrainedEnergyTold, ProbabilityTold, ExpTold, OccupantsTold};

use super::answers::tell;
use super::sums::tell_sum;
use design::Design;
use reply::ANSWERED;
use state_sums::LentLists;

// The exponential of a double. A refusal has no place.
pub fn mj_exp(x: f64, digits: &mut u32, power: &mut i32) -> u32
    ensures { ExpTold x result (weight digits.new power.new) }
{
    match exponential::exp(x) {
        Ok(weight) => {
            *digits = weight.digits;
            *power = weight.power;
            ANSWERED
        }
        Err(refusal) => {
            *digits = 0;
            *power = 0;
            refusal.number()
        }
    }
}

// The sum over all states.
pub fn mj_free_sum_of_energies(
    design: &Design,
    place: &mut u64,
    digits: &mut u32,
    power: &mut i32,
) -> u32
    ensures { FreeEnergyTold design.now result place.new (weight digits.new power.new) }
{
    tell_sum(
        probabilities::free_sum_of_energies(design),
        place,
        digits,
        power,
    )
}

// The sum over the states that lists of allowed occupants leave.
pub fn mj_constrained_sum_of_energies(
    design: &Design,
    lists: &LentLists<'_>,
    place: &mut u64,
    digits: &mut u32,
    power: &mut i32,
) -> u32
    ensures { ConstrainedEnergyTold design.now (lists_lent lists.now) result place.new (weight digits.new power.new) }
{
    tell_sum(
        probabilities::constrained_sum_of_energies(design, lists),
        place,
        digits,
        power,
    )
}

// The probability of these states.
pub fn mj_probability(
    design: &Design,
    lists: &LentLists<'_>,
    place: &mut u64,
    digits: &mut u32,
    power: &mut i32,
) -> u32
    ensures { ProbabilityTold design.now (lists_lent lists.now) result place.new (weight digits.new power.new) }
{
    tell_sum(
        probabilities::probability(design, lists),
        place,
        digits,
        power,
    )
}

// The probability of each occupant at each position, into a cell of its own.
pub fn mj_occupants(design: &Design, digits: &mut [u32], powers: &mut [i32], place: &mut u64) -> u32
    ensures { OccupantsTold design.now digits.old powers.old result place.new digits.new powers.new }
{
    tell(
        probabilities::occupant_probabilities(design, digits, powers),
        (),
        place,
        &mut (),
    )
}

// A weight as the bits of a double.
pub fn mj_weight(digits: u32, power: i32) -> u64
    ensures { result ≡ Ieee.to_bits binary64 (double_of (weight digits power)) }
{
    doubles::bits(probabilities::double::double_of(digits, power))
}
