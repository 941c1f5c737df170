// The probability of each occupant at each position: the sum over the states that have it there, by that over all states as it comes at the position, so
// that an occupant that stands there in every state has 1.
ghost use Rattle.std.specs.Prelude.{◌≡◌, not, ◌||◌, ◌*◌, ◌<◌, ◌≤◌, ltb, eqb, length};
ghost use Rattle.model.specs.Model.{options};
ghost use Rattle.design.specs.Design.{positions, strands, model_of};
ghost use Rattle.partition_sums.specs.Layout.{options_of, weights_of};
ghost use Rattle.probabilities.specs.Weighed.{WeightsNear};
ghost use Rattle.probabilities.specs.Occupants.{OccupantsFilled};

use super::quotient::quotient;
use design::Design;
use design::passed::AdmittedDesign;
use fractions::Weight;
use partition_sums::ends::fill_sums;
use partition_sums::lent::Formed;
use reply::limits::{POSITIONS, STRANDS};

// Whether there is not one digit and one power for each position and strand. More positions or strands than a design may have are told here too, so that
// no product is too large.
pub(crate) fn wrong_entries(design: &Design, digits: usize, powers: usize) -> bool
    ensures { result ≡ (ltb 128 (positions design.now) || (ltb 64 (strands design.now) || (not (eqb digits (positions design.now * strands design.now)) || not (eqb powers (positions design.now * strands design.now))))) }
{
    let positions = design.positions();
    let strands = design.strands();
    POSITIONS < positions
        || STRANDS < strands
        || digits != positions * strands
        || powers != positions * strands
}

// Writes the probability of each occupant at each position.
pub(crate) fn fill_occupants(
    admitted: &AdmittedDesign,
    formed: &Formed<'_, '_>,
    digits: &mut [u32],
    powers: &mut [i32],
)
    requires near { WeightsNear (model_of admitted.now) (weights_of formed.now.lent.weights) }
    requires options { options_of formed.now.lent.options ≡ options (model_of admitted.now) }
    requires a_count_each { length formed.now.lent.options.counts.now ≡ positions admitted.now }
    requires wide { formed.now.lent.weights.strands ≡ strands admitted.now }
    requires digits_in_bounds { positions admitted.now * strands admitted.now ≤ length digits.old }
    requires powers_in_bounds { positions admitted.now * strands admitted.now ≤ length powers.old }
    ensures digits_len { length digits.new ≡ length digits.old }
    ensures powers_len { length powers.new ≡ length powers.old }
    ensures filled { OccupantsFilled admitted.now digits.new powers.new }
{
    let strands = admitted.design.strands();
    let cells = admitted.design.positions() * strands;
    let totals = fill_sums(formed, digits, powers);
    // By number: nothing is known of what is written through a `zip` of `iter_mut`.
    for cell in 0..cells {
        let sum = Weight {
            digits: digits[cell],
            power: powers[cell],
        };
        let part = quotient(sum, totals[cell / strands]);
        digits[cell] = part.digits;
        powers[cell] = part.power;
    }
}
