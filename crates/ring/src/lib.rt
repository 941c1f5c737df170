// Ring scaffolds: the last position stands beside the first. The ring energy of a configuration of a design, and the search for the lowest; the Rust
// has neither. A design is lent as the calls on chains take it.
#![tactic(auto)]

ghost use Rattle.std.specs.Prelude.{◌≡◌};
ghost use Rattle.design.specs.Answers.{energy_figures};
ghost use Rattle.ring.specs.Answers.{ring_energy_answer, ring_search_answer, ring_search_entries, LowestRingShown};

use design::Design;
use design::passed::admitted;
use design::terms::terms_of;
use ensemble::energies::Places;
use mfe::searched;
use reply::limits::STRANDS;
use reply::{Refusal, Refused, refused_if};
use sdc1d::energy_admitted;
use units::KcalPerMol;

// A ring has no fewer positions.
const LEAST_RING: usize = 3;

// The ring energy of a configuration: one occupant for each position, 0 for an empty place.
pub fn ring_energy(design: &Design, configuration: &[u8]) -> Result<KcalPerMol, Refused>
    ensures { energy_figures result ≡ ring_energy_answer design.now configuration.now }
{
    let mut logarithms = [0.0; STRANDS];
    let admitted = energy_admitted(design, configuration, &mut logarithms)?;
    let design = admitted.design;
    refused_if(Refusal::NotARing, design.positions() < LEAST_RING)?;
    let terms = terms_of(&admitted, configuration);
    let places = Places {
        configuration,
        terms: &terms,
    };
    let first = configuration[0];
    let last = configuration[configuration.len() - 1];
    let closing = design.strand_bond(last, first);
    let sum = places.ring_sum(closing);
    Ok(sum * design.rt())
}

// The lowest ring, into one lent entry for each position, 0 for an empty place; and its energy.
pub fn ring_configuration(design: &Design, configuration: &mut [u8]) -> Result<KcalPerMol, Refused>
    ensures result_value { energy_figures result ≡ ring_search_answer design.now configuration.old }
    ensures configuration_after { configuration.new ≡ ring_search_entries design.now configuration.old }
    ensures lowest_ring_shown { LowestRingShown design.now configuration.old configuration.new result }
{
    design.hold_doubles();
    let own_size = configuration.len() != design.positions();
    let mut logarithms = [0.0; STRANDS];
    let admitted = admitted(own_size, design, &mut logarithms)?;
    refused_if(Refusal::NotARing, admitted.design.positions() < LEAST_RING)?;
    Ok(searched::<true>(&admitted, configuration))
}
