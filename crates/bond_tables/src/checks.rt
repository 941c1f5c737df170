// The conditions on which tables that are lent beside a design are refused.
ghost use Rattle.std.specs.Prelude.{◌≡◌, false, not, ◌||◌, List, [], ◌*◌, ◌≤◌, ltb, eqb, length, OnOk};
ghost use Rattle.lists.specs.Find.{any};
ghost use Rattle.reply.specs.First.{Check, first_of, ◌or_else◌};
ghost use Rattle.design.specs.Design.{positions, strands};
ghost use Rattle.design.specs.Checks.{beyond, design_checks};
ghost use Rattle.bond_tables.specs.Tables as Tables;
ghost use Rattle.bond_tables.specs.Tables.{bonds_out};
ghost use Rattle.bond_tables.specs.Answers.{over_checks};

use super::BondTables;
use design::Design;
use design::checks::ranged_reply;
use design::ranges::some_beyond;
use reply::limits::{POSITIONS, STRANDS};
use reply::{Refusal, Refused, refused_if};

// The most that a lent bond may be in size.
const BOND: f64 = 80000.0;

// Whether a table is not of its length. More positions or strands than a design may have are told here too, so that no product is too large.
pub(crate) fn wrong_tables(design: &Design, strand_cells: usize, scaffold_cells: usize) -> bool
    ensures { result ≡ (ltb 128 (positions design.now) || (ltb 64 (strands design.now) || (not (eqb strand_cells (strands design.now * strands design.now)) || not (eqb scaffold_cells (positions design.now * strands design.now))))) }
{
    let positions = design.positions();
    let strands = design.strands();
    POSITIONS < positions
        || STRANDS < strands
        || strand_cells != strands * strands
        || scaffold_cells != positions * strands
}

// Whether a cell is beyond the most that a bond may be.
fn cells_beyond(cells: &[f64]) -> bool
    ensures { result ≡ any (beyond 80000) cells.now }
{
    some_beyond(BOND, cells)
}

// What is refused on account of the tables: before the reply of the same call over the design, it is the reply over the tables.
pub(crate) fn bonds_reply(
    own_size: bool,
    design: &Design,
    tables: &BondTables,
) -> Result<(), Refused>
    ensures value { (own : List Check) → result or_else first_of (design_checks own_size design.now own []) ≡ first_of (over_checks own_size design.now tables.now.strand_bonds.now tables.now.scaffold_bonds.now own) }
    ensures tables { OnOk result (Tables.wrong_tables design.now tables.now.strand_bonds.now tables.now.scaffold_bonds.now ≡ false) }
    ensures cells { OnOk result (bonds_out tables.now.strand_bonds.now tables.now.scaffold_bonds.now ≡ false) }
    ensures strand_bonds_len { OnOk result (length tables.now.strand_bonds.now ≡ strands design.now * strands design.now) }
    ensures scaffold_bonds_len { OnOk result (length tables.now.scaffold_bonds.now ≡ positions design.now * strands design.now) }
    ensures few { OnOk result (strands design.now ≤ 64) }
{
    let wrong = wrong_tables(
        design,
        tables.strand_bonds.len(),
        tables.scaffold_bonds.len(),
    );
    refused_if(Refusal::WrongSize, wrong)?;
    if cells_beyond(tables.strand_bonds) || cells_beyond(tables.scaffold_bonds) {
        return ranged_reply(own_size, true, design);
    }
    Ok(())
}
