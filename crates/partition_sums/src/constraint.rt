// A constraint as it is lent: a list of allowed occupants for each position, 0 for empty.
ghost use Rattle.std.specs.Prelude.{◌≡◌, ◌<◌, [], length, get_or};

use std::marker::Model;

// All numbers in one slice, and for each position where its list starts and how long it is. A clause sees the lists.
#[derive(Drop)]
pub struct Constraint<'a> {
    pub numbers: &'a [u8],
    pub starts: &'a [usize],
    pub lengths: &'a [usize],
}

impl<'a> Model for Constraint<'a> {
    ghost use Rattle.std.specs.Prelude.{◌≤◌, List, ℕ, length};
    ghost use Rattle.partition.specs.Constraint.{lists_of};
    ghost use Rattle.partition_sums.specs.Layout.{Listed};

    ghost Value = { List (List ℕ) };

    ghost view = { λ a. lists_of a.numbers.now a.starts.now a.lengths.now };

    ghost invariant = { λ a. Listed (length a.starts.now) a.numbers.now a.starts.now a.lengths.now × (length a.starts.now ≤ 128) };
}

impl Constraint<'_> {
    // The list of a position.
    #[tactic(auto, using(crate::proofs::Constraints::has_start))]
    pub(crate) fn list(&self, position: usize) -> &[u8]
        requires { position < length self.now }
        ensures { result.now ≡ get_or self.now position [] }
    {
        let Constraint {
            numbers,
            starts,
            lengths,
        } = self;
        let start = starts[position];
        &numbers[start..start + lengths[position]]
    }
}
