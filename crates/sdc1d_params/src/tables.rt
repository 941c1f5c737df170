// The sums that entries write, their ranges, and the glue tables.
ghost use Rattle.std.specs.Prelude.{◌≡◌, ◌<◌, length, position};
ghost use Rattle.std.specs.Float.Ieee as Ieee;
ghost use Rattle.std.specs.Float.{binary64};
ghost use Rattle.lists.specs.Fold.{foldl};
ghost use Rattle.sdc1d_params.specs.Entries.{energy_of, entry_rows, entry_dg, entry_ds};
ghost use Rattle.sdc1d_params.specs.Tables.{out_of_range, set_both, write_dg, write_ds};
ghost use Rattle.sdc1d_params.specs.inner.Cells.{writes_at, InTables};

use crate::cells::Cell;
use crate::fit::FitEntry;
use crate::set::ParameterSet;
use reply::limits::{DG, DS};
use utils::DgDs;

impl FitEntry<'_> {
    // What an entry writes: its numbers, the junction penalty added to both.
    fn with_penalty(&self, penalty: DgDs) -> DgDs
        ensures { (result.dg.0 ≡ Ieee.add binary64 (entry_dg self.now.text.now (energy_of self.now.entry)) penalty.dg.0) × (result.ds.0 ≡ Ieee.add binary64 (entry_ds self.now.text.now (energy_of self.now.entry)) penalty.ds.0) }
    {
        self.dg_ds() + penalty
    }
}

// Whether a sum that is written is out of its range.
fn is_out(cell: Cell, sum: DgDs) -> bool
    ensures { result ≡ out_of_range (record { at = cell; dg = sum.dg.0; ds = sum.ds.0 }) }
{
    cell.is_written()
        && (!doubles::in_range(-DG, DG, sum.dg.0) || !doubles::in_range(-DS, DS, sum.ds.0))
}

// The first entry whose sum is written and out of its range.
pub(crate) fn first_out(set: &ParameterSet, cells: &[Cell]) -> Option<usize>
    requires { length cells.now ≡ entry_rows set.now.lent.entries.now }
    ensures { result ≡ position out_of_range (writes_at set.now.lent cells.now) }
{
    cells.iter().enumerate().position(|(i, cell)| is_out(
        *cell,
        set.entry(i).with_penalty(set.lent.penalty),
    ))
}

// A cell and its mirror set, where both names are known.
fn set_both(table: &mut [f64], cell: Cell, v: f64)
    requires { (length table.old ≡ 4096) × (cell.row < 64) × (cell.column < 64) }
    ensures { table.new ≡ set_both cell v table.old }
{
    if cell.is_written() {
        table[cell.place()] = v;
        table[cell.mirror().place()] = v;
    }
}

// What each entry writes, in order.
pub(crate) fn fill_tables(set: &ParameterSet, cells: &[Cell], dg: &mut [f64], ds: &mut [f64])
    requires cells_len { length cells.now ≡ entry_rows set.now.lent.entries.now }
    requires in_tables { InTables cells.now }
    requires dg_len { (length dg.old ≡ 4096) × (length ds.old ≡ 4096) }
    ensures dg_after { dg.new ≡ foldl write_dg dg.old (writes_at set.now.lent cells.now) }
    ensures ds_after { ds.new ≡ foldl write_ds ds.old (writes_at set.now.lent cells.now) }
{
    for (i, cell) in cells.iter().enumerate() {
        let sum = set.entry(i).with_penalty(set.lent.penalty);
        set_both(dg, *cell, sum.dg.0);
        set_both(ds, *cell, sum.ds.0);
    }
}
