// The terms that the places of a configuration add to its energies.
ghost use Rattle.std.specs.Prelude.{◌≤◌, length};
ghost use Rattle.model.specs.Model.{State};
ghost use Rattle.ensemble.specs.Layout.{PlaceTerms};
ghost use Rattle.design.specs.Design.{model_of};

use super::passed::AdmittedDesign;
use super::reads::{byte_at, number_at};
use ensemble::energies::Terms;
use reply::limits::POSITIONS;

// The terms of each place of a state.
#[tactic(auto, unfolding(crate::specs::Design::model_of))]
pub fn terms_of(admitted: &AdmittedDesign, configuration: &[u8]) -> [Terms; POSITIONS]
    requires configuration_in_bounds { length configuration.now ≤ 128 }
    ensures { State (model_of admitted.now) configuration.now → PlaceTerms (model_of admitted.now) configuration.now result }
{
    let design = admitted.design;
    let potentials = admitted.potentials();
    let mut terms = [Terms::default(); POSITIONS];
    for (position, &strand) in configuration.iter().enumerate() {
        let right = byte_at(configuration, position + 1);
        terms[position] = Terms {
            site: design.scaffold_bond(design.scaffold_glue(position), strand),
            pair: design.strand_bond(strand, right),
            potential: number_at(potentials, usize::from(strand)),
        };
    }
    terms
}
