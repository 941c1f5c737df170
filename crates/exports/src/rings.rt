// The calls on ring scaffolds as C callers have them.
ghost use Rattle.std.specs.Prelude.{◌≡◌};
ghost use Rattle.ring.specs.Answers.{ring_energy_answer, ring_search_answer, ring_search_entries};
ghost use Rattle.exports.specs.Lowest.{LowestRingTold};
ghost use Rattle.exports.specs.Told.{Told};

use super::answers::tell_energy;
use design::Design;

// The ring energy of a configuration.
pub fn mj_ring_energy(
    design: &Design,
    configuration: &[u8],
    place: &mut u64,
    energy: &mut f64,
) -> u32
    ensures { Told (ring_energy_answer design.now configuration.now) result place.new energy.new }
{
    tell_energy(ring::ring_energy(design, configuration), place, energy)
}

// The lowest ring, into one lent entry for each position, and its energy.
pub fn mj_ring_search(
    design: &Design,
    configuration: &mut [u8],
    place: &mut u64,
    energy: &mut f64,
) -> u32
    ensures told { Told (ring_search_answer design.now configuration.old) result place.new energy.new }
    ensures configuration_after { configuration.new ≡ ring_search_entries design.now configuration.old }
    ensures lowest_ring_told { LowestRingTold design.now result configuration.new energy.new }
{
    tell_energy(
        ring::ring_configuration(design, configuration),
        place,
        energy,
    )
}
