// The bonds that a search reads, in lent cells, row first, as wide as there are strands: where positions have few friends these are few. The value
// of a cell depends on its row and column alone, so a cell that is written twice keeps it.
ghost use Rattle.std.specs.Prelude.{◌≡◌, ℕ, ◌+◌, ◌*◌, ◌-◌, ◌<◌, ◌≤◌, length, get_or, take, drop, Float};
ghost use Rattle.design.specs.Design.{strands, strand_bond_in, scaffold_bond_in};
ghost use Rattle.design.specs.Filling.{Among, GivesAt, Kept, HeldAt, PairsHeld, ClosingHeld, SitesHeld};

use super::Design;
use super::options::OptionedDesign;
use super::tables::fill_strand_bonds;

// The bonds of a row with each of the strands that are listed.
fn fill_cells<F: Fn(u8) -> f64>(
    bond: F,
    row: usize,
    strands: usize,
    columns: &[u8],
    cells: &mut [f64],
)
    requires callable { F.IsAlwaysCallable bond }
    requires row_bound { row < 128 }
    requires strands_bound { strands ≤ 64 }
    requires among { Among strands columns.now }
    requires cells_in_bounds { row * strands + strands ≤ length cells.old }
    ensures { (f : ℕ → ℕ → Float) → GivesAt (F.post bond) (f row) → Kept f strands cells.old cells.new × HeldAt f strands cells.new row columns.now (length columns.now) }
{
    for &column in columns {
        cells[row * strands + usize::from(column)] = bond(column);
    }
}

// The strand bonds of two neighbouring positions: each option of the left one with each friend of the right one.
fn fill_neighbours(design: &Design, left: &[u8], friends: &[u8], cells: &mut [f64])
    requires strands_bound { strands design.now ≤ 64 }
    requires among { Among (strands design.now) left.now }
    requires among_2 { Among (strands design.now) friends.now }
    requires strands_in_bounds { strands design.now * strands design.now ≤ length cells.old }
    ensures kept { Kept (strand_bond_in design.now) (strands design.now) cells.old cells.new }
    ensures by_index { (j : ℕ) → j < length left.now → HeldAt (strand_bond_in design.now) (strands design.now) cells.new (get_or left.now j 0) friends.now (length friends.now) }
{
    let strands = design.strands();
    for &x in left {
        fill_cells(
            |y| design.strand_bond(x, y),
            usize::from(x),
            strands,
            friends,
            cells,
        );
    }
}

// How many strand bonds a search over these options reads, about: empty is counted as a friend. It decides on speed alone, so no more is proved of
// it than that it is small.
fn strand_bonds_read(counts: &[u8]) -> usize
    requires { length counts.now ≤ 128 }
    ensures { result ≤ 65025 * 128 }
{
    let mut read = 0;
    for pair in counts.windows(2) {
        read += usize::from(pair[0]) * usize::from(pair[1]);
    }
    read
}

impl OptionedDesign<'_, '_> {
    // The strand bonds that a search over these options reads.
    pub fn fill_needed_strand_bonds(&self, cells: &mut [f64])
        requires strands_in_bounds { strands self.now.design.now * strands self.now.design.now ≤ length cells.old }
        ensures { PairsHeld (strand_bond_in self.now.design.now) (strands self.now.design.now) cells.new self.now.options.rows.now self.now.options.counts.now (length self.now.options.counts.now - 1) }
    {
        // By number, as of the scaffold bonds below: options are asked of a position.
        for right in 1..self.options.counts.len() {
            fill_neighbours(
                self.design,
                self.options.of(right - 1),
                self.options.friends(right),
                cells,
            );
        }
    }

    // The same bonds, by the whole table where a search reads more than half as many as that has.
    pub fn fill_read_strand_bonds(&self, cells: &mut [f64])
        requires strands_in_bounds { strands self.now.design.now * strands self.now.design.now ≤ length cells.old }
        ensures { PairsHeld (strand_bond_in self.now.design.now) (strands self.now.design.now) cells.new self.now.options.rows.now self.now.options.counts.now (length self.now.options.counts.now - 1) }
    {
        let strands = self.design.strands();
        if strands * strands < 2 * strand_bonds_read(self.options.counts) {
            fill_strand_bonds(self.design, cells);
        } else {
            self.fill_needed_strand_bonds(cells);
        }
    }

    // The strand bonds by which a ring over these options is closed: from the last position to the first. What was filled stays.
    pub fn fill_closing_bonds(&self, cells: &mut [f64])
        requires counts_nonzero { 0 < length self.now.options.counts.now }
        requires strands_in_bounds { strands self.now.design.now * strands self.now.design.now ≤ length cells.old }
        ensures kept { Kept (strand_bond_in self.now.design.now) (strands self.now.design.now) cells.old cells.new }
        ensures closing_held { ClosingHeld (strand_bond_in self.now.design.now) (strands self.now.design.now) cells.new self.now.options.rows.now self.now.options.counts.now }
    {
        let last = self.options.counts.len() - 1;
        fill_neighbours(
            self.design,
            self.options.of(last),
            self.options.friends(0),
            cells,
        );
    }

    // The scaffold bonds that a search over these options reads.
    pub fn fill_needed_scaffold_bonds(&self, cells: &mut [f64])
        requires strands_in_bounds { length self.now.options.counts.now * strands self.now.design.now ≤ length cells.old }
        ensures { SitesHeld (scaffold_bond_in self.now.design.now) (strands self.now.design.now) cells.new self.now.options.rows.now self.now.options.counts.now (length self.now.options.counts.now) }
    {
        let strands = self.design.strands();
        for position in 0..self.options.counts.len() {
            let scaffold_glue = self.design.scaffold_glue(position);
            fill_cells(
                |strand| self.design.scaffold_bond(scaffold_glue, strand),
                position,
                strands,
                self.options.friends(position),
                cells,
            );
        }
    }
}
