// Tables of bonds that are kept beside a design: filled once, and then lent to the calls for state energy, states and the search, which read their
// cells where the same calls over a design work the bonds out.
//
// The strand bonds stand strands by strands, the scaffold bonds positions by strands, row first.
#![tactic(auto)]

mod checks;
mod terms;

ghost use Rattle.std.specs.Prelude.{◌≡◌, ◌*◌, length};
ghost use Rattle.reply.specs.Figures.{reply_figures};
ghost use Rattle.ensemble.specs.Layout.{Found};
ghost use Rattle.design.specs.Design.{positions, strands};
ghost use Rattle.design.specs.Answers.{count_figures, energy_figures};
ghost use Rattle.bond_tables.specs.Tables.{CellDoubles, model_over};
ghost use Rattle.bond_tables.specs.Answers.{fill_answer, filled_strands, filled_scaffold, energy_over_answer, count_over_answer, rank_over_answer, rank_over_entries, search_over_answer, search_over_entries, LowestOver};

use checks::{bonds_reply, wrong_tables};
use design::Design;
use design::options::options_of;
use design::passed::{AdmittedDesign, admitted};
use design::tables::{fill_scaffold_bonds, fill_strand_bonds};
use ensemble::bonds::Bonds;
use ensemble::energies::Places;
use ensemble::lent::LentModel;
use ensemble::lowest::lowest;
use ensemble::options::OPTIONS;
use reply::Refused;
use reply::limits::{POSITIONS, STRANDS};
use sdc1d::{energy_admitted, number_of_states, state_at_rank};
use terms::terms_over;
use units::KcalPerMol;

// Tables of bonds that are lent beside a design.
#[derive(Clone, Copy)]
pub struct BondTables<'a> {
    pub strand_bonds: &'a [f64],
    pub scaffold_bonds: &'a [f64],
}

// Fills both tables with the design's bonds, each row as a stretch of its own.
pub fn fill_bond_tables(
    design: &Design,
    strand_bonds: &mut [f64],
    scaffold_bonds: &mut [f64],
) -> Result<(), Refused>
    ensures result_value { reply_figures result ≡ fill_answer design.now strand_bonds.old scaffold_bonds.old }
    ensures strand_bonds_after { strand_bonds.new ≡ filled_strands design.now strand_bonds.old scaffold_bonds.old }
    ensures scaffold_bonds_after { scaffold_bonds.new ≡ filled_scaffold design.now strand_bonds.old scaffold_bonds.old }
{
    let own_size = wrong_tables(design, strand_bonds.len(), scaffold_bonds.len());
    let mut logarithms = [0.0; STRANDS];
    let admitted = admitted(own_size, design, &mut logarithms)?;
    fill_strand_bonds(admitted.design, strand_bonds);
    fill_scaffold_bonds(admitted.design, scaffold_bonds);
    Ok(())
}

// The state energy of a configuration over lent bonds.
pub fn state_energy_over(
    design: &Design,
    tables: &BondTables,
    configuration: &[u8],
) -> Result<KcalPerMol, Refused>
    ensures { energy_figures result ≡ energy_over_answer design.now tables.now.strand_bonds.now tables.now.scaffold_bonds.now configuration.now }
{
    bonds_reply(configuration.len() != design.positions(), design, tables)?;
    let mut logarithms = [0.0; STRANDS];
    let admitted = energy_admitted(design, configuration, &mut logarithms)?;
    let terms = terms_over(&admitted, tables, configuration);
    let places = Places {
        configuration,
        terms: &terms,
    };
    let sumg = places.state_sum();
    Ok(sumg * admitted.design.rt())
}

// How many states there are. They do not hang on bonds: where the tables pass, it is the count over the design.
pub fn count_over(design: &Design, tables: &BondTables) -> Result<u64, Refused>
    ensures { count_figures result ≡ count_over_answer design.now tables.now.strand_bonds.now tables.now.scaffold_bonds.now }
{
    bonds_reply(false, design, tables)?;
    number_of_states(design)
}

// The state at a rank, into one lent entry for each position.
pub fn state_over(
    design: &Design,
    tables: &BondTables,
    rank: u64,
    entries: &mut [u8],
) -> Result<(), Refused>
    ensures result_value { reply_figures result ≡ rank_over_answer design.now tables.now.strand_bonds.now tables.now.scaffold_bonds.now rank entries.old }
    ensures entries_after { entries.new ≡ rank_over_entries design.now tables.now.strand_bonds.now tables.now.scaffold_bonds.now rank entries.old }
{
    bonds_reply(entries.len() != design.positions(), design, tables)?;
    state_at_rank(design, rank, entries)
}

// The options of an admitted design, and the search over them and lent bonds.
fn lowest_over<'a>(
    admitted: &AdmittedDesign<'a>,
    tables: &BondTables<'a>,
    configuration: &mut [u8],
) -> KcalPerMol
    requires strand_bonds_len { length tables.now.strand_bonds.now ≡ strands admitted.now * strands admitted.now }
    requires scaffold_bonds_len { length tables.now.scaffold_bonds.now ≡ positions admitted.now * strands admitted.now }
    requires configuration_len { length configuration.old ≡ positions admitted.now }
    ensures { Found (model_over admitted.now tables.now.strand_bonds.now tables.now.scaffold_bonds.now) configuration.new result.0 }
{
    let design = admitted.design;
    let mut rows = [0u8; OPTIONS];
    let mut counts = [0u8; POSITIONS];
    let options = options_of(
        &admitted.tabled(),
        &mut rows,
        &mut counts[..design.positions()],
    );
    let bonds = Bonds::new(
        tables.strand_bonds,
        tables.scaffold_bonds,
        admitted.potentials(),
    );
    lowest(&LentModel { options, bonds }, design.rt(), configuration)
}

// That every cell of a table is a double, for the laws that ask it.
fn hold_doubles(cells: &[f64])
    ensures { CellDoubles cells.now }
{
    let _cells = cells;
}

// The lowest configuration over lent bonds, into one lent entry for each position, and its energy.
pub fn search_over(
    design: &Design,
    tables: &BondTables,
    configuration: &mut [u8],
) -> Result<KcalPerMol, Refused>
    ensures result_value { energy_figures result ≡ search_over_answer design.now tables.now.strand_bonds.now tables.now.scaffold_bonds.now configuration.old }
    ensures configuration_after { configuration.new ≡ search_over_entries design.now tables.now.strand_bonds.now tables.now.scaffold_bonds.now configuration.old }
    ensures lowest_over { LowestOver design.now tables.now.strand_bonds.now tables.now.scaffold_bonds.now configuration.old configuration.new result }
{
    let own_size = configuration.len() != design.positions();
    bonds_reply(own_size, design, tables)?;
    design.hold_doubles();
    hold_doubles(tables.strand_bonds);
    hold_doubles(tables.scaffold_bonds);
    let mut logarithms = [0.0; STRANDS];
    let admitted = admitted(own_size, design, &mut logarithms)?;
    Ok(lowest_over(&admitted, tables, configuration))
}
