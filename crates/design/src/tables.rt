// Tables of bonds in lent cells, row first, as wide as there are strands: strands by strands, and positions by strands.
ghost use Rattle.std.specs.Prelude.{◌≡◌, ℕ, ◌*◌, ◌<◌, ◌≤◌, length, Float};
ghost use Rattle.std.specs.Float.{nan};
ghost use Rattle.lists.specs.Build.{tabulate};
ghost use Rattle.lists.specs.Grid.{Grid};
ghost use Rattle.design.specs.Design.{positions, strands, strand_bond_in, scaffold_bond_in};
ghost use Rattle.design.specs.Filling.{GivesAt, Gives};

use super::Design;

// The bonds of a row with each strand. A filler of any cells, by their number or by a job's word, would have to be public and of a crate below both: it
// is no longer than what calls it.
fn fill_row<F: Fn(u8) -> f64>(bond: F, row: &mut [f64])
    requires callable { F.IsAlwaysCallable bond }
    requires row_bound { length row.old ≤ 64 }
    ensures { (f : ℕ → Float) → GivesAt (F.post bond) f → row.new ≡ tabulate (length row.old) f }
{
    for (strand, cell) in row.iter_mut().enumerate() {
        *cell = bond(strand as u8);
    }
}

// The bonds of each row, a stretch of the cells of its own.
fn fill_rows<F: Fn(u8, u8) -> f64>(bond: F, rows: usize, strands: usize, cells: &mut [f64])
    requires callable { F.IsAlwaysCallable bond }
    requires rows_bound { rows ≤ 128 }
    requires strands_bound { strands ≤ 64 }
    requires cells_in_bounds { rows * strands ≤ length cells.old }
    ensures { (f : ℕ → ℕ → Float) → Gives (F.post bond) f → Grid f nan strands (length cells.old) rows 0 cells.new }
{
    // By number, which the bond asks; and there may be no strands, where `chunks_exact_mut` has no size to go by.
    for row in 0..rows {
        let start = row * strands;
        let end = start + strands;
        fill_row(|strand| bond(row as u8, strand), &mut cells[start..end]);
    }
}

// The bonds of each two strands.
pub fn fill_strand_bonds(design: &Design, cells: &mut [f64])
    requires strands_bound { strands design.now ≤ 64 }
    requires strands_in_bounds { strands design.now * strands design.now ≤ length cells.old }
    ensures { Grid (strand_bond_in design.now) nan (strands design.now) (length cells.old) (strands design.now) 0 cells.new }
{
    let strands = design.strands();
    fill_rows(|x, y| design.strand_bond(x, y), strands, strands, cells);
}

// The bonds of each position with each strand.
pub fn fill_scaffold_bonds(design: &Design, cells: &mut [f64])
    requires strands_bound { strands design.now ≤ 64 }
    requires scaffold_len_bound { positions design.now ≤ 128 }
    requires strands_in_bounds { positions design.now * strands design.now ≤ length cells.old }
    ensures { Grid (scaffold_bond_in design.now) nan (strands design.now) (length cells.old) (positions design.now) 0 cells.new }
{
    fill_rows(
        |position, strand| design.scaffold_bond(
            design.scaffold_glue(usize::from(position)),
            strand,
        ),
        design.positions(),
        design.strands(),
        cells,
    );
}
