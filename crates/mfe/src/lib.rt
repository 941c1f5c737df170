// The search for the lowest configuration of a design (sdc1d.rs, `mfe_configuration`): the design's checks, its options and bonds, and the search over
// these. A local table is zeroed before it is filled, so a small design takes a small one.
#![tactic(auto)]

ghost use Rattle.std.specs.Prelude.{◌≡◌, true, false, ◌*◌, ◌<◌, ◌≤◌, length};
ghost use Rattle.ensemble.specs.Layout.{Found};
ghost use Rattle.ensemble.specs.Ring.{FoundRing};
ghost use Rattle.design.specs.Design.{positions, strands, model_of};
ghost use Rattle.design.specs.Answers.{energy_figures};
ghost use Rattle.mfe.specs.Answers.{search_answer, search_entries, LowestShown};

use design::Design;
use design::options::{OptionedDesign, options_of};
use design::passed::{AdmittedDesign, admitted};
use ensemble::bonds::{Bonds, SCAFFOLD_BONDS, STRAND_BONDS};
use ensemble::lent::LentModel;
use ensemble::lowest::lowest;
use ensemble::options::OPTIONS;
use ensemble::rings::lowest_ring;
use reply::Refused;
use reply::limits::{POSITIONS, STRANDS};
use units::KcalPerMol;

// Options and bonds of an admitted design, the bonds in tables with room for so many, and the search over them: of its lowest configuration, or of its
// lowest ring.
// A const says which, at both places: as two closures, one that fills the closing bonds and one that searches, the second would have to ask in a clause
// for what the first has written.
fn settled<const RING: bool, const STRAND_CELLS: usize, const SCAFFOLD_CELLS: usize>(
    admitted: &AdmittedDesign,
    configuration: &mut [u8],
) -> KcalPerMol
    requires strand_cells_bound { STRAND_CELLS ≤ 4096 }
    requires scaffold_cells_bound { SCAFFOLD_CELLS ≤ 8192 }
    requires strands_in_bounds { strands admitted.now * strands admitted.now ≤ STRAND_CELLS }
    requires positions_in_bounds { positions admitted.now * strands admitted.now ≤ SCAFFOLD_CELLS }
    requires configuration_len { length configuration.old ≡ positions admitted.now }
    requires closed { RING ≡ true → 0 < positions admitted.now }
    ensures chain { RING ≡ false → Found (model_of admitted.now) configuration.new result.0 }
    ensures ring { RING ≡ true → FoundRing (model_of admitted.now) configuration.new result.0 }
{
    let design = admitted.design;
    let mut rows = [0u8; OPTIONS];
    let mut counts = [0u8; POSITIONS];
    let counts = &mut counts[..design.positions()];
    let mut strand_bonds = [0.0; STRAND_CELLS];
    let mut scaffold_bonds = [0.0; SCAFFOLD_CELLS];
    let options = options_of(&admitted.tabled(), &mut rows, counts);
    let optioned = OptionedDesign { design, options };
    optioned.fill_read_strand_bonds(&mut strand_bonds);
    optioned.fill_needed_scaffold_bonds(&mut scaffold_bonds);
    if RING {
        optioned.fill_closing_bonds(&mut strand_bonds);
    }
    let bonds = Bonds::new(&strand_bonds, &scaffold_bonds, admitted.potentials());
    let lent = LentModel { options, bonds };
    if RING {
        lowest_ring(&lent, design.rt(), configuration)
    } else {
        lowest(&lent, design.rt(), configuration)
    }
}

// The same with tables that are large enough.
pub fn searched<const RING: bool>(admitted: &AdmittedDesign, configuration: &mut [u8]) -> KcalPerMol
    requires configuration_len { length configuration.old ≡ positions admitted.now }
    requires closed { RING ≡ true → 0 < positions admitted.now }
    ensures chain { RING ≡ false → Found (model_of admitted.now) configuration.new result.0 }
    ensures ring { RING ≡ true → FoundRing (model_of admitted.now) configuration.new result.0 }
{
    let design = admitted.design;
    let scaffold_cells = design.positions() * design.strands();
    if design.strands() <= 16 {
        if scaffold_cells <= 256 {
            settled::<RING, 256, 256>(admitted, configuration)
        } else {
            settled::<RING, 256, 2048>(admitted, configuration)
        }
    } else if scaffold_cells <= 2048 {
        settled::<RING, STRAND_BONDS, 2048>(admitted, configuration)
    } else {
        settled::<RING, STRAND_BONDS, SCAFFOLD_BONDS>(admitted, configuration)
    }
}

// The lowest configuration, into one lent entry for each position, 0 for an empty place; and its energy.
pub fn mfe_configuration(design: &Design, configuration: &mut [u8]) -> Result<KcalPerMol, Refused>
    ensures result_value { energy_figures result ≡ search_answer design.now configuration.old }
    ensures configuration_after { configuration.new ≡ search_entries design.now configuration.old }
    ensures lowest_shown { LowestShown design.now configuration.old configuration.new result }
{
    design.hold_doubles();
    let own_size = configuration.len() != design.positions();
    let mut logarithms = [0.0; STRANDS];
    let admitted = admitted(own_size, design, &mut logarithms)?;
    Ok(searched::<false>(&admitted, configuration))
}
