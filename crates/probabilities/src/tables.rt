// An admitted design's options, with the weights of its own energies.
ghost use Rattle.std.specs.Prelude.{◌≡◌, ◌*◌, ◌<◌, ◌≤◌, length};
ghost use Rattle.model.specs.Model.{options};
ghost use Rattle.design.specs.Design.{positions, strands, model_of};
ghost use Rattle.partition_sums.specs.Layout.{options_of, weights_of};
ghost use Rattle.probabilities.specs.Weighed.{WeightsNear};

use super::weights::{fill_pair_weights, fill_place_weights};
use design::options::options_of;
use design::passed::AdmittedDesign;
use ensemble::bonds::{SCAFFOLD_BONDS, STRAND_BONDS};
use ensemble::options::OPTIONS;
use partition_sums::lent::{Formed, Lent};
use partition_sums::weights::Weights;
use reply::limits::POSITIONS;

// Room for the options and the weights of any design.
#[derive(Drop)]
pub(crate) struct Room {
    rows: [u8; OPTIONS],
    counts: [u8; POSITIONS],
    place_digits: [u32; SCAFFOLD_BONDS],
    place_powers: [i32; SCAFFOLD_BONDS],
    pair_digits: [u32; STRAND_BONDS],
    pair_powers: [i32; STRAND_BONDS],
}

impl Room {
    pub(crate) fn empty() -> Self {
        Room {
            rows: [0; OPTIONS],
            counts: [0; POSITIONS],
            place_digits: [0; SCAFFOLD_BONDS],
            place_powers: [0; SCAFFOLD_BONDS],
            pair_digits: [0; STRAND_BONDS],
            pair_powers: [0; STRAND_BONDS],
        }
    }

    // The options and the weights of a design, written here. Each weight is worked out once.
    pub(crate) fn formed<'a>(&'a mut self, admitted: &AdmittedDesign) -> Formed<'a, 'a>
        requires scaffold_nonzero { 0 < positions admitted.now }
        ensures near { WeightsNear (model_of admitted.now) (weights_of result.lent.weights) }
        ensures options { options_of result.lent.options ≡ options (model_of admitted.now) }
        ensures a_count_each { length result.lent.options.counts.now ≡ positions admitted.now }
        ensures wide { result.lent.weights.strands ≡ strands admitted.now }
    {
        let Room {
            rows,
            counts,
            place_digits,
            place_powers,
            pair_digits,
            pair_powers,
        } = self;
        let positions = admitted.design.positions();
        let options = options_of(&admitted.tabled(), rows, &mut counts[..positions]);
        fill_place_weights(admitted, place_digits, place_powers);
        fill_pair_weights(admitted, pair_digits, pair_powers);
        let weights = Weights {
            place_digits,
            place_powers,
            pair_digits,
            pair_powers,
            strands: admitted.design.strands(),
        };
        let lent = Lent { options, weights };
        Formed { lent }
    }
}
