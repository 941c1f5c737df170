// Tables of bonds beside a design, and the calls over them, as C callers have them.
ghost use Rattle.std.specs.Prelude.{◌≡◌};
ghost use Rattle.bond_tables.specs.Answers.{fill_answer, filled_strands, filled_scaffold, energy_over_answer, count_over_answer, rank_over_answer, rank_over_entries, search_over_answer, search_over_entries};
ghost use Rattle.exports.specs.Tables.{LowestToldOver};
ghost use Rattle.exports.specs.Told.{Told};

use super::answers::{tell, tell_energy};
use bond_tables::BondTables;
use design::Design;

// Fills both tables with the bonds of a design.
pub fn mj_bond_tables(
    design: &Design,
    strand_bonds: &mut [f64],
    scaffold_bonds: &mut [f64],
    place: &mut u64,
) -> u32
    ensures told { Told (fill_answer design.now strand_bonds.old scaffold_bonds.old) result place.new tt }
    ensures strand_bonds_after { strand_bonds.new ≡ filled_strands design.now strand_bonds.old scaffold_bonds.old }
    ensures scaffold_bonds_after { scaffold_bonds.new ≡ filled_scaffold design.now strand_bonds.old scaffold_bonds.old }
{
    tell(
        bond_tables::fill_bond_tables(design, strand_bonds, scaffold_bonds),
        (),
        place,
        &mut (),
    )
}

// The state energy of a configuration over lent bonds.
pub fn mj_state_energy_over(
    design: &Design,
    tables: &BondTables,
    configuration: &[u8],
    place: &mut u64,
    energy: &mut f64,
) -> u32
    ensures { Told (energy_over_answer design.now tables.now.strand_bonds.now tables.now.scaffold_bonds.now configuration.now) result place.new energy.new }
{
    tell_energy(
        bond_tables::state_energy_over(design, tables, configuration),
        place,
        energy,
    )
}

// How many states there are.
pub fn mj_states_over(design: &Design, tables: &BondTables, place: &mut u64, count: &mut u64) -> u32
    ensures { Told (count_over_answer design.now tables.now.strand_bonds.now tables.now.scaffold_bonds.now) result place.new count.new }
{
    tell(bond_tables::count_over(design, tables), 0, place, count)
}

// The state at a rank, into one lent entry for each position.
pub fn mj_state_over(
    design: &Design,
    tables: &BondTables,
    rank: u64,
    entries: &mut [u8],
    place: &mut u64,
) -> u32
    ensures told { Told (rank_over_answer design.now tables.now.strand_bonds.now tables.now.scaffold_bonds.now rank entries.old) result place.new tt }
    ensures entries_after { entries.new ≡ rank_over_entries design.now tables.now.strand_bonds.now tables.now.scaffold_bonds.now rank entries.old }
{
    tell(
        bond_tables::state_over(design, tables, rank, entries),
        (),
        place,
        &mut (),
    )
}

// The lowest configuration over lent bonds, into one lent entry for each position, and its energy.
pub fn mj_search_over(
    design: &Design,
    tables: &BondTables,
    configuration: &mut [u8],
    place: &mut u64,
    energy: &mut f64,
) -> u32
    ensures told { Told (search_over_answer design.now tables.now.strand_bonds.now tables.now.scaffold_bonds.now configuration.old) result place.new energy.new }
    ensures configuration_after { configuration.new ≡ search_over_entries design.now tables.now.strand_bonds.now tables.now.scaffold_bonds.now configuration.old }
    ensures lowest_told_over { LowestToldOver design.now tables.now.strand_bonds.now tables.now.scaffold_bonds.now result configuration.new energy.new }
{
    tell_energy(
        bond_tables::search_over(design, tables, configuration),
        place,
        energy,
    )
}
