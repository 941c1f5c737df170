// The sum over the states of lent options: the pass over the positions, from the last to the first.
ghost use Rattle.std.specs.Prelude.{◌≡◌, length};
ghost use Rattle.partition.specs.Pass.{allowed};
ghost use Rattle.partition.specs.Summed.{sum_of_weights};
ghost use Rattle.partition_sums.specs.Layout.{options_of, weights_of};

use super::allowed::keep_allowed;
use super::constraint::Constraint;
use super::lent::{Formed, Lent};
use super::rows::{last_row, row_before, sum_terms};
use super::terms::lowered;
use ensemble::options::{OPTIONS, Options};
use fractions::Weight;
use reply::limits::POSITIONS;

// The sum over all states of options of which each position has one.
pub fn free_sum(formed: &Formed<'_, '_>) -> Weight
    ensures { result ≡ sum_of_weights (weights_of formed.now.lent.weights) (options_of formed.now.lent.options) }
{
    let options = &formed.lent.options;
    let positions = options.counts.len();
    let mut row = last_row(formed);
    // By number: a row is asked for by its position.
    for position in (0..positions - 1).rev() {
        row = row_before(formed, position, &row);
    }
    lowered(
        sum_terms(options.of(0), |x| row[usize::from(x)]),
        2 * positions - 1,
    )
}

// The sum over the states that meet a constraint: zero where it leaves a position no option, before any arithmetic.
pub fn constrained_sum(formed: &Formed<'_, '_>, constraint: &Constraint<'_>) -> Weight
    requires a_list_each { length constraint.now ≡ length formed.now.lent.options.counts.now }
    ensures { result ≡ sum_of_weights (weights_of formed.now.lent.weights) (allowed constraint.now (options_of formed.now.lent.options)) }
{
    let options = &formed.lent.options;
    let positions = options.counts.len();
    let mut kept_rows = [0; OPTIONS];
    let mut kept_counts = [0; POSITIONS];
    let counts = &mut kept_counts[..positions];
    keep_allowed(options, constraint, &mut kept_rows, counts);
    if counts.contains(&0) {
        return Weight::default();
    }
    let options = Options {
        rows: &kept_rows,
        counts,
        strands: options.strands,
    };
    let weights = formed.lent.weights;
    let lent = Lent { options, weights };
    free_sum(&Formed { lent })
}
