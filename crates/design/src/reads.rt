// What a lent slice holds at a place, and 0 past its end.
ghost use Rattle.std.specs.Prelude.{◌≡◌, ◌<◌, get_or};
ghost use Rattle.doubles.specs.Decimal.{zero};
ghost use Rattle.design.specs.Laws.{Doubles};
ghost use Rattle.design.specs.Design.{positions, strands, cell, side, scaffold_glue, amount};

use super::Design;
use reply::limits::{GLUES, SIDES};
use units::KcalPerMol;

// The west glue is the first of the three.
pub const WEST_GLUE_INDEX: usize = 0;

// The bottom glue is the second.
pub const BOTTOM_GLUE_INDEX: usize = 1;

// The east glue is the third.
pub const EAST_GLUE_INDEX: usize = 2;

// The byte at a place.
pub fn byte_at(bytes: &[u8], place: usize) -> u8
    ensures { result ≡ get_or bytes.now place 0 }
{
    bytes.get(place).copied().unwrap_or(0)
}

// The double at a place.
pub fn number_at(numbers: &[f64], place: usize) -> f64
    ensures { result ≡ get_or numbers.now place zero }
{
    numbers.get(place).copied().unwrap_or(0.0)
}

// The cell [row][column] of a glue table.
pub fn cell_at(table: &[f64], row: u8, column: u8) -> f64
    ensures { result ≡ cell table.now row column }
{
    number_at(table, usize::from(row) * GLUES + usize::from(column))
}

impl<'a> Design<'a> {
    // That every number of a design is a double, for the laws that ask it.
    pub fn hold_doubles(&self)
        ensures { Doubles self.now }
    {
        let _dg = self.dg;
    }

    // RT.
    pub fn rt(&self) -> KcalPerMol
        ensures { result ≡ self.now.ambient.rt }
    {
        self.ambient.rt
    }

    // How many strands there are, strand 0 included.
    pub fn strands(&self) -> usize
        ensures { result ≡ strands self.now }
    {
        self.amounts.len()
    }

    // How many positions the scaffold has.
    pub fn positions(&self) -> usize
        ensures { result ≡ positions self.now }
    {
        self.scaffold.len()
    }

    // The scaffold glue at a position.
    pub fn scaffold_glue(&self, position: usize) -> u8
        ensures { result ≡ scaffold_glue self.now position }
    {
        byte_at(self.scaffold, position)
    }

    // The glue at a strand's side: of the three, the one with this index.
    fn side_glue(&self, strand: u8, index: usize) -> u8
        requires { index < 3 }
        ensures { result ≡ side self.now.glues strand index }
    {
        byte_at(self.glues, SIDES * usize::from(strand) + index)
    }

    // The glue at a strand's west.
    pub fn west_glue(&self, strand: u8) -> u8
        ensures { result ≡ side self.now.glues strand 0 }
    {
        self.side_glue(strand, WEST_GLUE_INDEX)
    }

    // The glue at a strand's bottom.
    pub fn bottom_glue(&self, strand: u8) -> u8
        ensures { result ≡ side self.now.glues strand 1 }
    {
        self.side_glue(strand, BOTTOM_GLUE_INDEX)
    }

    // The glue at a strand's east.
    pub fn east_glue(&self, strand: u8) -> u8
        ensures { result ≡ side self.now.glues strand 2 }
    {
        self.side_glue(strand, EAST_GLUE_INDEX)
    }

    // The amount of a strand.
    pub fn amount_of(&self, strand: u8) -> f64
        ensures { result ≡ amount self.now strand }
    {
        number_at(self.amounts, usize::from(strand))
    }
}
