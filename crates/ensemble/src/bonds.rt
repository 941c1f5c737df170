// Bonds as they are lent: strand bonds in a table of strands by strands, scaffold bonds in one of positions by strands, both row first; and potentials.
ghost use Rattle.std.specs.Prelude.{◌≡◌, ℕ, ◌+◌, ◌*◌, ◌<◌, ◌≤◌, length, get_or};
ghost use Rattle.std.specs.Float.{nan};
ghost use Rattle.ensemble.specs.inner.Entries.{table_bond};

use reply::limits::{POSITIONS, STRANDS};

// The strand bonds of as many strands as there may be.
pub const STRAND_BONDS: usize = STRANDS * STRANDS;

// The scaffold bonds of as many positions and strands as there may be.
pub const SCAFFOLD_BONDS: usize = POSITIONS * STRANDS;

// A row of a table of so many columns, row first, as a part of its cells.
pub fn row_of<T>(cells: &[T], width: usize, row: usize) -> &[T]
    requires { row * width + width ≤ length cells.now }
    ensures sized { length result.now ≡ width }
    ensures cells { (x : ℕ) (other : T) → x < width → get_or result.now x other ≡ get_or cells.now (row * width + x) other }
{
    let start = row * width;
    let end = start + width;
    &cells[start..end]
}

// A table of strand bonds.
#[derive(Clone, Copy)]
pub struct StrandBonds<'a> {
    pub cells: &'a [f64],
    pub strands: usize,
    ghost few: { strands ≤ 64 },
    ghost square: { strands * strands ≤ length cells.now },
}

impl<'a> StrandBonds<'a> {
    // The bond of a left and a right strand.
    pub fn between(&self, left: u8, right: usize) -> f64
        requires left_known { left < self.now.strands }
        requires right_known { right < self.now.strands }
        ensures { result ≡ table_bond self.now.strands self.now.cells.now left right }
    {
        self.cells[usize::from(left) * self.strands + right]
    }

    // The bonds of a left strand with each right one.
    pub(crate) fn row(&self, left: u8) -> &'a [f64]
        requires { left < self.now.strands }
        ensures sized { length result.now ≡ self.now.strands }
        ensures bonds { (right : ℕ) → right < self.now.strands → get_or result.now right nan ≡ table_bond self.now.strands self.now.cells.now left right }
    {
        row_of(self.cells, self.strands, usize::from(left))
    }
}

// The bonds and the potentials of so many strands.
#[derive(Clone, Copy)]
pub struct Bonds<'a> {
    pub strand_bonds: StrandBonds<'a>,
    pub scaffold_bonds: &'a [f64],
    pub potentials: &'a [f64],
    ghost a_potential_each: { length potentials.now ≡ strand_bonds.strands },
}

impl<'a> Bonds<'a> {
    // As a function of its own it gives all three slices one lifetime.
    pub fn new(strand_bonds: &'a [f64], scaffold_bonds: &'a [f64], potentials: &'a [f64]) -> Self
        requires few { length potentials.now ≤ 64 }
        requires square { length potentials.now * length potentials.now ≤ length strand_bonds.now }
        ensures strand_bonds { result.strand_bonds.cells.now ≡ strand_bonds.now }
        ensures strands { result.strand_bonds.strands ≡ length potentials.now }
        ensures scaffold_bonds { result.scaffold_bonds.now ≡ scaffold_bonds.now }
        ensures potentials { result.potentials.now ≡ potentials.now }
    {
        let strand_bonds = StrandBonds {
            cells: strand_bonds,
            strands: potentials.len(),
        };
        Bonds {
            strand_bonds,
            scaffold_bonds,
            potentials,
        }
    }

    // The scaffold bonds of a position, by strand.
    pub(crate) fn scaffold_bonds_at(&self, position: usize) -> &'a [f64]
        requires { position * self.now.strand_bonds.strands + self.now.strand_bonds.strands ≤ length self.now.scaffold_bonds.now }
        ensures sized { length result.now ≡ self.now.strand_bonds.strands }
        ensures cells { (x : ℕ) → x < self.now.strand_bonds.strands → get_or result.now x nan ≡ get_or self.now.scaffold_bonds.now (position * self.now.strand_bonds.strands + x) nan }
    {
        row_of(self.scaffold_bonds, self.strand_bonds.strands, position)
    }
}
