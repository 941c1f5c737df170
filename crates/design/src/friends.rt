// Friends: the strands that a scaffold glue binds, at positions that are open.
ghost use Rattle.std.specs.Prelude.{◌≡◌};
ghost use Rattle.design.specs.Design.{blocked, binding, befriends};
ghost use Rattle.design.specs.Checks.{somewhere};

use super::Design;
use super::reads::{byte_at, cell_at};

// The mark of a blocked position; that of an open one is 0. Marks are bytes since callers in C lend them.
pub const BLOCKED: u8 = 1;

impl<'a> Design<'a> {
    // Whether a position is blocked.
    pub fn is_blocked(&self, position: usize) -> bool
        ensures { result ≡ blocked self.now position }
    {
        byte_at(self.marks, position) == BLOCKED
    }

    // Whether dG or dS is nonzero at a cell.
    pub fn binds(&self, row: u8, column: u8) -> bool
        ensures { result ≡ binding self.now.dg self.now.ds row column }
    {
        cell_at(self.dg, row, column) != 0.0 || cell_at(self.ds, row, column) != 0.0
    }

    // Whether the strand is a friend at an open position with this scaffold glue.
    #[tactic(auto, unfolding(crate::specs::Design::befriends))]
    pub fn is_friend(&self, scaffold_glue: u8, strand: u8) -> bool
        ensures { result ≡ befriends scaffold_glue self.now.glues self.now.dg self.now.ds strand }
    {
        self.binds(scaffold_glue, self.bottom_glue(strand))
    }

    // Whether the strand is a friend at some position.
    pub fn is_friend_somewhere(&self, strand: u8) -> bool
        ensures { result ≡ somewhere self.now.scaffold self.now.marks self.now.glues self.now.dg self.now.ds strand }
    {
        (0..self.positions()).any(|position| {
            !self.is_blocked(position) && self.is_friend(self.scaffold_glue(position), strand)
        })
    }
}
