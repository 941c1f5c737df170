// Rows of terms, by strand: for each option of a position its term with all that can follow it; 0 where no option stands.
ghost use Rattle.std.specs.Prelude.{◌≡◌, ℕ, ◌+◌, ◌-◌, ◌^◌, ◌<◌, ◌≤◌, length, slice_index};
ghost use Rattle.partition.specs.declared.Term as Declared;
ghost use Rattle.partition.specs.Pass as Pass;
ghost use Rattle.partition.specs.inner.Used.{Fit};
ghost use Rattle.partition_sums.specs.Layout.{weights_of};
ghost use Rattle.partition_sums.specs.inner.Rows as Rows;
ghost use Rattle.partition_sums.specs.inner.Rows.{Joins, Row};

use super::lent::{Formed, Lent};
use super::terms::{term_plus, term_times};
use partition::Term;
use reply::limits::STRANDS;

// The sum over one option or more of the term of each, in their order.
pub(crate) fn sum_terms<F: Fn(u8) -> Term>(options: &[u8], term: F) -> Term
    requires options_nonzero { (0 < length options.now) × (length options.now ≤ 64) }
    requires callable { (k : ℕ) → k < length options.now → F.pre term (slice_index options.now k) }
    requires fit { (k : ℕ) (t : Declared.Term) → k < length options.now → F.post term (slice_index options.now k) t → Fit (2 ^ 31) t }
    // where `term` computes f, the definition's sum of f
    ensures { (f : ℕ → Declared.Term) → ((k : ℕ) (t : Declared.Term) → k < length options.now → F.post term (slice_index options.now k) t → t ≡ f (slice_index options.now k)) → result ≡ Pass.sum_terms f options.now }
{
    // In a loop from the first on: `reduce` gives an Option, and there is no sum of no option to put for its `None`.
    let mut sum = term(options[0]);
    for x in &options[1..] {
        sum = term_plus(sum, term(*x));
    }
    sum
}

// A pair's factor times the term of its right occupant.
#[tactic(auto, unfolding(crate::specs::inner::Rows::joined))]
fn joined(lent: &Lent<'_, '_>, row: &[Term; STRANDS], left: u8, right: u8) -> Term
    requires { Joins (weights_of lent.now.weights) row.now left right }
    ensures { result ≡ Rows.joined (weights_of lent.now.weights) row.now left right }
{
    term_times(lent.pair_factor(left, right), row[usize::from(right)])
}

// The row of the last position, which nothing follows.
pub(crate) fn last_row(formed: &Formed<'_, '_>) -> [Term; STRANDS]
    ensures { Row formed.now.lent (length formed.now.lent.options.counts.now - 1) result }
{
    let lent = &formed.lent;
    let position = lent.options.counts.len() - 1;
    let mut row = [Term::default(); STRANDS];
    for x in lent.options.of(position) {
        row[usize::from(*x)] = lent.place_factor(position, *x);
    }
    row
}

// The row of a position, from that of the next one.
pub(crate) fn row_before(
    formed: &Formed<'_, '_>,
    position: usize,
    next_row: &[Term; STRANDS],
) -> [Term; STRANDS]
    requires next_in_bounds { position + 1 < length formed.now.lent.options.counts.now }
    requires next { Row formed.now.lent (position + 1) next_row.now }
    ensures { Row formed.now.lent position result }
{
    let lent = &formed.lent;
    let next = lent.options.of(position + 1);
    let mut row = [Term::default(); STRANDS];
    for x in lent.options.of(position) {
        let sum = sum_terms(next, |y| joined(lent, next_row, *x, y));
        let place = lent.place_factor(position, *x);
        row[usize::from(*x)] = term_times(place, sum);
    }
    row
}
