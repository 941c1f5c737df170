// The left choices of all positions, and the configuration that is traced back through them.
ghost use Rattle.std.specs.Prelude.{◌≡◌, ℕ, ◌<◌, ◌≤◌, length};
ghost use Rattle.ensemble.specs.inner.Entries.{choice_in, LowTable, traced_back};

use reply::limits::{POSITIONS, STRANDS};

// A friend's left choice by its strand, and the empty entry's beside them: document 01 keeps the two apart, though strand 0 is nowhere a friend.
#[derive(Drop)]
pub(crate) struct Choices {
    pub friends: [[u8; STRANDS]; POSITIONS],
    pub empty: [u8; POSITIONS],
    ghost low: { LowTable friends empty },
}

impl Choices {
    // Before any position is passed: all are 0.
    pub(crate) fn new() -> Self
        ensures { (i strand : ℕ) → choice_in result.friends result.empty i strand ≡ 0 }
    {
        Choices {
            friends: [[0; STRANDS]; POSITIONS],
            empty: [0; POSITIONS],
        }
    }

    // The left choice of a strand at a position.
    fn of(&self, strand: u8, position: usize) -> u8
        requires place { position < 128 }
        requires known { strand < 64 }
        ensures value { result ≡ choice_in self.now.friends self.now.empty position strand }
        ensures known { result < 64 }
    {
        if strand == 0 {
            return self.empty[position];
        }
        self.friends[position][usize::from(strand)]
    }

    // Writes a configuration from its last occupant: from the last position to the first, each occupant is the left choice of the one to its right.
    pub(crate) fn trace(&self, last: u8, configuration: &mut [u8])
        requires short { length configuration.old ≤ 128 }
        requires known { last < 64 }
        ensures { configuration.new ≡ traced_back (choice_in self.now.friends self.now.empty) (length configuration.old) last }
    {
        let mut strand = last;
        // By number: after `iter_mut().enumerate().rev()` nothing is known of what was written.
        for position in (0..configuration.len()).rev() {
            configuration[position] = strand;
            strand = self.of(strand, position);
        }
    }
}
