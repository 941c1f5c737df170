// The weights that some state uses, and whether one is outside its form.
ghost use Rattle.std.specs.Prelude.{◌≡◌, ◌+◌, ◌<◌, ◌≤◌, length, slice_index, EachIndex};
ghost use Rattle.lists.specs.Build.{up_to};
ghost use Rattle.lists.specs.Find.{any};
ghost use Rattle.partition.specs.Weights.{places_out_at, pairs_out, pairs_out_at, weights_out};
ghost use Rattle.partition_sums.specs.Layout.{friends_of, weights_of};
ghost use Rattle.partition_sums.specs.inner.Rows.{out_in};

use super::lent::Lent;
use super::terms::unformed;
use super::weights::WeightRow;

// Whether the weight of one of several strands in a row is outside its form.
fn row_out(row: &WeightRow<'_>, strands: &[u8]) -> bool
    requires { EachIndex strands.now (λ k. slice_index strands.now k < length row.now.digits.now) }
    ensures { result ≡ any (out_in row.now.digits.now row.now.powers.now) strands.now }
{
    strands.iter().any(|strand| unformed(row.of(*strand)))
}

// Whether the weight of a friend of a position is outside its form.
fn places_out_at(lent: &Lent<'_, '_>, position: usize) -> bool
    requires { position < length lent.now.options.counts.now }
    ensures { result ≡ places_out_at (friends_of lent.now.options) (weights_of lent.now.weights) position }
{
    let friends = lent.options.friends(position);
    row_out(&lent.place_row(position), friends)
}

// Whether the weight of a left strand with one of several right strands is outside its form.
fn pairs_out(lent: &Lent<'_, '_>, left: u8, right: &[u8]) -> bool
    requires left_in_bounds { left < lent.now.weights.strands }
    requires right_in_bounds { EachIndex right.now (λ k. slice_index right.now k < lent.now.weights.strands) }
    ensures { result ≡ pairs_out (weights_of lent.now.weights) right.now left }
{
    row_out(&lent.pair_row(left), right)
}

// Whether the weight of a friend of a position with a friend of the next is outside its form.
fn pairs_out_at(lent: &Lent<'_, '_>, position: usize) -> bool
    requires { position + 1 < length lent.now.options.counts.now }
    ensures { result ≡ pairs_out_at (friends_of lent.now.options) (weights_of lent.now.weights) position }
{
    let next = lent.options.friends(position + 1);
    lent.options
        .friends(position)
        .iter()
        .any(|strand| pairs_out(lent, *strand, next))
}

// Whether the weight of a friend at its position is outside its form.
fn places_out(lent: &Lent<'_, '_>) -> bool
    ensures { result ≡ any (places_out_at (friends_of lent.now.options) (weights_of lent.now.weights)) (up_to (length lent.now.options.counts.now)) }
{
    (0..lent.options.counts.len()).any(|position| places_out_at(lent, position))
}

// Whether the weight of a friend of a position with a friend of the next is outside its form.
fn neighbours_out(lent: &Lent<'_, '_>) -> bool
    ensures { result ≡ any (pairs_out_at (friends_of lent.now.options) (weights_of lent.now.weights)) (up_to (length lent.now.options.counts.now)) }
{
    (1..lent.options.counts.len()).any(|next| pairs_out_at(lent, next - 1))
}

// Whether a weight that some state uses is outside its form.
pub fn weights_out(lent: &Lent<'_, '_>) -> bool
    ensures { result ≡ weights_out (friends_of lent.now.options) (weights_of lent.now.weights) }
{
    places_out(lent) || neighbours_out(lent)
}
