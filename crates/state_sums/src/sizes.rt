// Whether what is lent beside a design has the design's sizes.
ghost use Rattle.std.specs.Prelude.{◌≡◌, ◌||◌, ◌≤◌, false};
ghost use Rattle.partition_sums.specs.Layout.{weights_of, Listed};
ghost use Rattle.state_sums.specs.Sizes.{wrong_cells, lists_lent, list_outside, wrong_lists};

use super::LentLists;
use partition_sums::weights::Weights;
use reply::limits::{POSITIONS, STRANDS};

// Whether there is not just one weight for each position and strand, and for each left and right strand. Where a design has more positions or strands
// than a design can have, its own sizes decide, and no product is formed.
pub(crate) fn wrong_cells(positions: usize, weights: &Weights<'_>) -> bool
    ensures { positions ≤ 128 → weights.now.strands ≤ 64 → result ≡ wrong_cells positions (weights_of weights.now) }
{
    let Weights {
        place_digits,
        place_powers,
        pair_digits,
        pair_powers,
        strands,
    } = *weights;
    POSITIONS < positions
        || STRANDS < strands
        || place_digits.len() != positions * strands
        || place_powers.len() != positions * strands
        || pair_digits.len() != strands * strands
        || pair_powers.len() != strands * strands
}

// Whether a list leaves the numbers that are lent, so many of them.
fn list_outside(many: usize, start: usize, length: usize) -> bool
    ensures { result ≡ list_outside many start length }
{
    many < start || many - start < length
}

// Whether there is not just one list for each position, or one leaves the numbers.
#[tactic(auto, unfolding(crate::specs::Sizes::wrong_lists))]
pub fn wrong_lists(positions: usize, lists: &LentLists<'_>) -> bool
    ensures { result ≡ wrong_lists positions (lists_lent lists.now) }
{
    let LentLists {
        numbers,
        starts,
        lengths,
    } = *lists;
    starts.len() != positions
        || lengths.len() != positions
        || starts.iter().zip(lengths).any(|(start, length)| list_outside(
            numbers.len(),
            *start,
            *length,
        ))
}

// Whether weights or lists do not have a design's sizes.
pub(crate) fn wrong_sizes(positions: usize, weights: &Weights<'_>, lists: &LentLists<'_>) -> bool
    ensures value { positions ≤ 128 → weights.now.strands ≤ 64 → result ≡ (wrong_cells positions (weights_of weights.now) || wrong_lists positions (lists_lent lists.now)) }
    ensures listed { result ≡ false → Listed positions lists.now.numbers.now lists.now.starts.now lists.now.lengths.now }
{
    wrong_cells(positions, weights) || wrong_lists(positions, lists)
}
