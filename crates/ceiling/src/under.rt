// The first state in listing order whose state energy is at most a ceiling. The positions are gone through as the listing goes, each option before all
// of the later positions, so that a sum up to a position serves for every state that begins so.
ghost use Rattle.std.specs.Prelude.{◌≡◌, ℕ, ◌<◌, ◌≤◌, length};
ghost use Rattle.model.specs.Model.{Model};
ghost use Rattle.ensemble.specs.Layout.{OptionRows};
ghost use Rattle.prepared.specs.Layout.{StateBonds};
ghost use Rattle.prepared.specs.inner.Sums.{Beside};
ghost use Rattle.ceiling.specs.inner.Passing.{UnderFrom};

use ensemble::lent::LentModel;
use prepared::sums::{Begun, begin, ended};

// RT, and the most that a state energy may be.
#[derive(Clone, Copy)]
pub(crate) struct Limit {
    pub rt: f64,
    pub ceiling: f64,
}

// Of all states that begin with the occupants before a position, the first that is under the ceiling: its energy, and its later occupants are written.
// Where there is none nothing is written.
pub(crate) fn under_from(
    lent: &LentModel,
    limit: Limit,
    begun: Begun,
    position: usize,
    entries: &mut [u8],
) -> Option<f64>
    requires entries_len { length entries.old ≡ length lent.now.options.counts.now }
    requires position_in_bounds { position ≤ length lent.now.options.counts.now }
    requires strand_in_bounds { begun.strand < lent.now.options.strands }
    ensures { (m : Model) → OptionRows m lent.now.options.rows.now lent.now.options.counts.now → StateBonds m lent.now.bonds → limit.rt ≡ m.rt → Beside m position begun.strand → UnderFrom m limit.ceiling position begun.strand begun.sum entries.old entries.new result }
{
    if position == lent.options.counts.len() {
        let energy = ended(begun, lent.bonds.potentials) * limit.rt;
        return (energy <= limit.ceiling).then_some(energy);
    }
    for strand in lent.options.of(position) {
        let next = begin(begun, *strand, position, &lent.bonds);
        let found = under_from(lent, limit, next, position + 1, entries);
        if let Some(energy) = found {
            entries[position] = *strand;
            return Some(energy);
        }
    }
    None
}
