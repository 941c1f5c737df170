// States: how many there are, and the one at a rank.
ghost use Rattle.std.specs.Prelude.{◌≡◌, ◌<◌, min, length};
ghost use Rattle.lists.specs.Build.{product};
ghost use Rattle.model.specs.Model.{Model, options};
ghost use Rattle.model.specs.States.{choice_at};
ghost use Rattle.ensemble.specs.Layout.{Readable, OptionRows};

use super::options::ROW;

// The most states that are counted.
pub const MOST_STATES: u64 = 1048576;

// The product of the counts, or one past the limit where it is larger. No product on the way is larger than 255 times that.
pub fn state_count(counts: &[u8]) -> u64
    ensures { result ≡ min (product counts.now) 1048577 }
{
    let mut states = 1;
    for count in counts {
        states = (states * u64::from(*count)).min(MOST_STATES + 1);
    }
    states
}

// Writes the state at a rank, one occupant for each position. Rows and counts are two slices, since `Options` would ask more of callers: that each option
// is one of so many strands, and of positions and strands no more than there may be.
pub fn write_state(rows: &[u8], counts: &[u8], states: u64, rank: u64, entries: &mut [u8])
    requires readable { Readable rows.now counts.now }
    requires states_value { states ≡ product counts.now }
    requires rank_lt_states { rank < states }
    requires entries_len { length entries.old ≡ length counts.now }
    ensures { (m : Model) → OptionRows m rows.now counts.now → entries.new ≡ choice_at (options m) rank }
{
    // The states that the later positions have, and the rank among these.
    let mut later = states;
    let mut left = rank;
    for (position, count) in counts.iter().enumerate() {
        later = later / u64::from(*count);
        let option = (left / later) as usize;
        entries[position] = rows[ROW * position + option];
        left = left % later;
    }
}
