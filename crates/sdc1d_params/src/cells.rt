// Where entries are written: one name or a pair, from the numbers of the names to a cell of the tables.
ghost use Rattle.std.specs.Prelude.{◌≡◌, ◌<◌, ◌≤◌, length, position};
ghost use Rattle.lists.specs.Build.{up_to};
ghost use Rattle.sdc1d_params.specs.Entries.{is_written, entry_rows};
ghost use Rattle.sdc1d_params.specs.Tables.{place_of};
ghost use Rattle.sdc1d_params.specs.Places.{repeats};
ghost use Rattle.sdc1d_params.specs.inner.Cells.{one_cell, mirror, cell_among, cells_among, InTables, mark_both, is_marked};

use crate::entries::first_name;
use crate::fit::FitEntry;
use crate::set::ParameterSet;
use reply::limits::{CELLS, GLUES};
use sdc_common::table::BaseTable;

// A cell of the glue tables: the numbers of two names, 0 where a name is not known. The definitions number it so, as document 01 does, and a cell is
// those two numbers; an `Option` would be made by a test of both and taken apart by another wherever a cell is used.
#[derive(Clone, Copy, PartialEq, Eq, Debug)]
pub(crate) struct Cell {
    pub(crate) row: usize,
    pub(crate) column: usize,
}

// No name's cell.
pub(crate) const NO_CELL: Cell = Cell { row: 0, column: 0 };

impl Cell {
    // Whether both names are known.
    pub(crate) fn is_written(self) -> bool
        ensures { result ≡ is_written self }
    {
        self.row != 0 && self.column != 0
    }

    // Its place in a table.
    pub(crate) fn place(self) -> usize
        requires { (self.row < 64) × (self.column < 64) }
        ensures { (result ≡ place_of self.row self.column) × (result < 4096) }
    {
        self.row * GLUES + self.column
    }

    // The same pair the other way round.
    pub(crate) fn mirror(self) -> Cell
        ensures { result ≡ mirror self }
    {
        Cell {
            row: self.column,
            column: self.row,
        }
    }
}

// The cell of one name's base and base*, by the number of the name.
fn one_cell(number: usize) -> Cell
    requires { number < 64 }
    ensures { result ≡ one_cell number }
{
    if number == 0 {
        return NO_CELL;
    }
    let base = if number % 2 == 0 { number - 1 } else { number };
    Cell {
        row: base,
        column: base + 1,
    }
}

impl FitEntry<'_> {
    // The cell of an entry, from a table of at most 31 bases.
    fn cell(&self, bases: &BaseTable) -> Cell
        requires { length bases.now ≤ 31 }
        ensures { result ≡ cell_among bases.now self.now.text.now self.now.entry }
    {
        let first = bases.number(first_name(self.entry).bytes(self.text));
        match self.entry.second.bytes(self.text) {
            None => one_cell(first),
            Some(second) => Cell {
                row: first,
                column: bases.number(Some(second)),
            },
        }
    }
}

// The cell of each entry, from a table of at most 31 bases.
pub(crate) fn fill_cells(set: &ParameterSet, bases: &BaseTable, cells: &mut [Cell])
    requires few { length bases.now ≤ 31 }
    requires cells_len { length cells.old ≡ entry_rows set.now.lent.entries.now }
    ensures { cells.new ≡ cells_among bases.now set.now.lent }
{
    for (i, cell) in cells.iter_mut().enumerate() {
        *cell = set.entry(i).cell(bases);
    }
}

// Whether a cell was met before, it or its mirror. A cell that is not written never was.
fn is_marked(seen: &[bool], cell: Cell) -> bool
    requires { (length seen.now ≡ 4096) × (cell.row < 64) × (cell.column < 64) }
    ensures { result ≡ is_marked seen.now cell }
{
    cell.is_written() && seen[cell.place()]
}

// A cell that is written and its mirror marked.
fn mark_both(seen: &mut [bool], cell: Cell)
    requires { (length seen.old ≡ 4096) × (cell.row < 64) × (cell.column < 64) }
    ensures { seen.new ≡ mark_both seen.old cell }
{
    if cell.is_written() {
        seen[cell.place()] = true;
        seen[cell.mirror().place()] = true;
    }
}

// The first entry that has the pair of one before it. A loop, since each turn marks what the later ones look at.
pub(crate) fn first_repeated(cells: &[Cell]) -> Option<usize>
    requires { InTables cells.now }
    ensures { result ≡ position (repeats cells.now) (up_to (length cells.now)) }
{
    let mut seen = [false; CELLS];
    for (i, cell) in cells.iter().enumerate() {
        if is_marked(&seen, *cell) {
            return Some(i);
        }
        mark_both(&mut seen, *cell);
    }
    None
}
