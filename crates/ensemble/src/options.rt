// The options of each position, as they are lent: rows of 64, a row for each position, and how many of each row are options.
ghost use Rattle.std.specs.Prelude.{◌≡◌, ℕ, ◌+◌, ◌*◌, ◌-◌, ◌<◌, ◌≤◌, length, get_or, take, drop};
ghost use Rattle.ensemble.specs.Layout.{Searchable};
ghost use Rattle.ensemble.specs.inner.Entries.{Known};

use reply::limits::{POSITIONS, STRANDS};

// The width of a row: friends, of which strand 0 is none, and empty.
pub const ROW: usize = STRANDS;

// The rows of as many positions as there may be. There is no heap: a caller declares rows and counts as arrays that any design fits, and lends as many
// counts as its own has positions.
pub const OPTIONS: usize = POSITIONS * ROW;

// A position's options are its friends in order, then 0 for empty; each is one of so many strands.
#[derive(Clone, Copy)]
pub struct Options<'a> {
    pub rows: &'a [u8],
    pub counts: &'a [u8],
    pub strands: usize,
    ghost searchable: { Searchable strands rows.now counts.now },
}

impl<'a> Options<'a> {
    // The options of a position.
    pub fn of(&self, position: usize) -> &'a [u8]
        requires { position < length self.now.counts.now }
        ensures row { result.now ≡ take (get_or self.now.counts.now position 0) (drop (64 * position) self.now.rows.now) }
        ensures sized { length result.now ≡ get_or self.now.counts.now position 0 }
        ensures some { 0 < length result.now }
        ensures few { length result.now ≤ 64 }
        ensures known { Known self.now.strands result.now }
    {
        let start = ROW * position;
        let end = start + usize::from(self.counts[position]);
        &self.rows[start..end]
    }

    // The friends of a position: its options without empty, the last.
    pub fn friends(&self, position: usize) -> &'a [u8]
        requires { position < length self.now.counts.now }
        ensures row { result.now ≡ take (get_or self.now.counts.now position 0 - 1) (drop (64 * position) self.now.rows.now) }
        ensures sized { length result.now + 1 ≡ get_or self.now.counts.now position 0 }
        ensures known { Known self.now.strands result.now }
    {
        let start = ROW * position;
        let end = start + usize::from(self.counts[position]) - 1;
        &self.rows[start..end]
    }
}
