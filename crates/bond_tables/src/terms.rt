// The terms that the places of a configuration add to its energies, out of lent tables. `design::terms` works the bonds out where these are read: one
// function of two closures would be longer than both.
ghost use Rattle.std.specs.Prelude.{◌≡◌, ◌≤◌, length};
ghost use Rattle.ensemble.specs.Layout.{PlaceTerms};
ghost use Rattle.model.specs.Model.{State};
ghost use Rattle.design.specs.Design.{model_of};
ghost use Rattle.bond_tables.specs.Tables.{bond_cell, model_over};

use super::BondTables;
use design::passed::AdmittedDesign;
use design::reads::{byte_at, number_at};
use ensemble::energies::Terms;
use reply::limits::POSITIONS;

// The cell [row][column] of a table as wide as there are strands.
fn bond_cell(strands: usize, cells: &[f64], row: usize, column: u8) -> f64
    requires strands_bound { strands ≤ 64 }
    requires row_bound { row ≤ 255 }
    ensures { result ≡ bond_cell strands cells.now row column }
{
    number_at(cells, row * strands + usize::from(column))
}

// The terms of each place of a state.
pub(crate) fn terms_over(
    admitted: &AdmittedDesign,
    tables: &BondTables,
    configuration: &[u8],
) -> [Terms; POSITIONS]
    requires configuration_len_bound { length configuration.now ≤ 128 }
    ensures { State (model_of admitted.now) configuration.now → PlaceTerms (model_over admitted.now tables.now.strand_bonds.now tables.now.scaffold_bonds.now) configuration.now result }
{
    let strands = admitted.design.strands();
    let potentials = admitted.potentials();
    let mut terms = [Terms::default(); POSITIONS];
    for (position, &strand) in configuration.iter().enumerate() {
        let right = byte_at(configuration, position + 1);
        terms[position] = Terms {
            site: bond_cell(strands, tables.scaffold_bonds, position, strand),
            pair: bond_cell(strands, tables.strand_bonds, usize::from(strand), right),
            potential: number_at(potentials, usize::from(strand)),
        };
    }
    terms
}
