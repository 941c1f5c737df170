// The bonds that states and the search read, into lent cells, row first, as wide as there are strands.
ghost use Rattle.std.specs.Prelude.{◌≡◌, List, ℕ, Float, ◌*◌, ◌<◌, ◌≤◌, length};
ghost use Rattle.ensemble.specs.Layout.{OptionRows};
ghost use Rattle.design.specs.Design.{strands, strand_bond_in, model_of};
ghost use Rattle.design.specs.Checks.{Admitted};
ghost use Rattle.design.specs.Blocked.{with_marks};
ghost use Rattle.design.specs.Unread.{PotentialsOf};
ghost use Rattle.design.specs.Filling.{Kept, Holds};
ghost use Rattle.prepared.specs.Layout.{StateCells};

use design::Design;
use design::options::OptionedDesign;

// The strand bonds of each strand with an empty place to its right. The search reads none of these, a state energy does.
fn fill_empties(design: &Design, cells: &mut [f64])
    requires strands_nonzero { 0 < strands design.now }
    requires strands_bound { strands design.now ≤ 64 }
    requires strands_in_bounds { strands design.now * strands design.now ≤ length cells.old }
    ensures kept { Kept (strand_bond_in design.now) (strands design.now) cells.old cells.new }
    ensures by_index { (x : ℕ) → x < strands design.now → Holds (strand_bond_in design.now) (strands design.now) cells.new x 0 }
{
    let strands = design.strands();
    // By number: a strand is one, and of what is written through rows of `chunks_exact_mut` nothing is known where the loop ends.
    for x in 0..strands {
        cells[x * strands] = design.strand_bond(x as u8, 0);
    }
}

// The bonds of an admitted design that its states and its search read, whatever is blocked of it. They are written into cells that callers go on to lend, so
// the clause is of cells and of no `Bonds`.
pub fn fill_bonds(optioned: &OptionedDesign, strand_bonds: &mut [f64], scaffold_bonds: &mut [f64])
    requires strands_nonzero { 0 < strands optioned.now.design.now }
    requires strands_in_bounds { strands optioned.now.design.now * strands optioned.now.design.now ≤ length strand_bonds.old }
    requires counts_in_bounds { length optioned.now.options.counts.now * strands optioned.now.design.now ≤ length scaffold_bonds.old }
    ensures { (marks : List ℕ) (potentials : List Float) → PotentialsOf (with_marks optioned.now.design.now marks) potentials → Admitted (with_marks optioned.now.design.now marks) → OptionRows (model_of (with_marks optioned.now.design.now marks)) optioned.now.options.rows.now optioned.now.options.counts.now → StateCells (model_of (with_marks optioned.now.design.now marks)) (strands optioned.now.design.now) strand_bonds.new scaffold_bonds.new potentials }
{
    optioned.fill_read_strand_bonds(strand_bonds);
    fill_empties(optioned.design, strand_bonds);
    optioned.fill_needed_scaffold_bonds(scaffold_bonds);
}
