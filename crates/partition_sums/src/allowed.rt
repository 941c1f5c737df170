// The options that a constraint leaves.
ghost use Rattle.std.specs.Prelude.{◌≡◌, ℕ, ◌*◌, ◌<◌, ◌≤◌, length};
ghost use Rattle.partition.specs.Constraint.{allows};
ghost use Rattle.partition_sums.specs.inner.Kept.{Kept, KeptRows};

use super::constraint::Constraint;
use ensemble::options::Options;
use reply::limits::STRANDS;

// Whether a list allows an occupant: an empty one allows all.
#[tactic(auto, unfolding(partition::specs::Constraint::allows))]
fn list_allows(list: &[u8], x: u8) -> bool
    ensures { result ≡ allows list.now x }
{
    list.is_empty() || list.contains(&x)
}

// Writes the options that a list allows into the first entries of a row, and says how many there are.
fn keep_row(list: &[u8], options: &[u8], row: &mut [u8]) -> u8
    requires options_len_bound { length options.now ≤ 64 }
    requires row_len { length row.old ≡ 64 }
    ensures { Kept list.now options.now row.new result }
{
    // By number: of what is written through adapters nothing is known afterwards, and what passes a test can't be collected into a slice.
    let mut count = 0;
    for x in options {
        if list_allows(list, *x) {
            row[count] = *x;
            count += 1;
        }
    }
    count as u8
}

// The options of each position that its list allows, into its row, and how many there are.
pub(crate) fn keep_allowed(
    options: &Options<'_>,
    constraint: &Constraint<'_>,
    kept_rows: &mut [u8],
    kept_counts: &mut [u8],
)
    requires constraint_len { length constraint.now ≡ length options.now.counts.now }
    requires counts_in_bounds { 64 * length options.now.counts.now ≤ length kept_rows.old }
    requires kept_counts_len { length kept_counts.old ≡ length options.now.counts.now }
    ensures { KeptRows options.now.rows.now options.now.counts.now constraint.now kept_rows.new kept_counts.new }
{
    // By number, since lists and options are asked for by it.
    for position in 0..kept_counts.len() {
        let row = STRANDS * position;
        kept_counts[position] = keep_row(
            constraint.list(position),
            options.of(position),
            &mut kept_rows[row..row + STRANDS],
        );
    }
}
