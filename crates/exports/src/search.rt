// The search for the lowest configuration as C callers have it.
ghost use Rattle.std.specs.Prelude.{◌≡◌};
ghost use Rattle.mfe.specs.Answers.{search_answer, search_entries};
ghost use Rattle.exports.specs.Lowest.{LowestTold};
ghost use Rattle.exports.specs.Told.{Told};

use super::answers::tell_energy;
use design::Design;

// The lowest configuration, into one lent entry for each position, and its energy.
pub fn mj_search(
    design: &Design,
    configuration: &mut [u8],
    place: &mut u64,
    energy: &mut f64,
) -> u32
    ensures told { Told (search_answer design.now configuration.old) result place.new energy.new }
    ensures configuration_after { configuration.new ≡ search_entries design.now configuration.old }
    ensures lowest_told { LowestTold design.now result configuration.new energy.new }
{
    tell_energy(mfe::mfe_configuration(design, configuration), place, energy)
}
