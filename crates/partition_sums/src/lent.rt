// What a call is lent: the options of each position, and the weights of places and pairs.
ghost use Rattle.std.specs.Prelude.{◌≡◌, ◌||◌, ℕ, ◌<◌, eqb, false, length};
ghost use Rattle.partition.specs.inner.Used.{InUse, Weighs};
ghost use Rattle.partition.specs.Weights.{weight_at, place_weight, pair_weight};
ghost use Rattle.partition_sums.specs.Layout.{options_of, weights_of, Celled};
ghost use Rattle.partition_sums.specs.inner.Props.{in_use_prop};

use super::terms::{HIGHEST, lifted};
use super::weights::{WeightRow, Weights};
use ensemble::bonds::row_of;
use ensemble::options::Options;
use partition::Term;

// The factor of an empty place, and of a pair with one: 2^30 2^-30, as a term.
pub(crate) const ONE: Term = Term {
    digits: 0x4000_0000,
    power: HIGHEST as u64 - 30,
};

// Options and weights of as many strands, with all cells; each lent for its own time, so that weights serve for other options too.
#[derive(Clone, Copy)]
pub struct Lent<'a, 'b> {
    pub options: Options<'a>,
    pub weights: Weights<'b>,
    ghost same_strands: { weights.strands ≡ options.strands },
    ghost celled: { Celled (length options.counts.now) (weights_of weights) },
}

// What the pass goes over: one position or more, and each weight that some state uses in its form.
#[derive(Clone, Copy)]
pub struct Formed<'a, 'b> {
    pub lent: Lent<'a, 'b>,
    ghost some: { 0 < length lent.options.counts.now },
    ghost in_use: { InUse (weights_of lent.weights) 0 (options_of lent.options) } by { in_use_prop (weights_of lent.weights) 0 (options_of lent.options) },
}

impl<'a, 'b> Lent<'a, 'b> {
    ghost use Rattle.partition_sums.specs.inner.Rows.{place_term, pair_term};

    // The weights of the strands at a position. A row is lent as a part: with one index for row and column the check of weights took longer by half.
    pub(crate) fn place_row(&self, position: usize) -> WeightRow<'b>
        requires { position < length self.now.options.counts.now }
        ensures sized { length result.digits.now ≡ self.now.weights.strands }
        ensures weights { (x : ℕ) → x < self.now.weights.strands → weight_at result.digits.now result.powers.now x ≡ place_weight (weights_of self.now.weights) position x }
    {
        let weights = self.weights;
        WeightRow {
            digits: row_of(weights.place_digits, weights.strands, position),
            powers: row_of(weights.place_powers, weights.strands, position),
        }
    }

    // The weights of a left strand with the right ones.
    pub(crate) fn pair_row(&self, left: u8) -> WeightRow<'b>
        requires { left < self.now.weights.strands }
        ensures sized { length result.digits.now ≡ self.now.weights.strands }
        ensures weights { (x : ℕ) → x < self.now.weights.strands → weight_at result.digits.now result.powers.now x ≡ pair_weight (weights_of self.now.weights) left x }
    {
        let weights = self.weights;
        let left = usize::from(left);
        WeightRow {
            digits: row_of(weights.pair_digits, weights.strands, left),
            powers: row_of(weights.pair_powers, weights.strands, left),
        }
    }

    // The factor of a strand at a position: 1 where it stands for an empty place.
    pub(crate) fn place_factor(&self, position: usize, strand: u8) -> Term
        requires position_in_bounds { position < length self.now.options.counts.now }
        requires strand_in_bounds { strand < self.now.weights.strands }
        requires weighs { eqb strand 0 ≡ false → Weighs 400000 (place_weight (weights_of self.now.weights) position strand) }
        ensures { result ≡ place_term (weights_of self.now.weights) position strand }
    {
        if strand == 0 {
            ONE
        } else {
            lifted(self.place_row(position).of(strand))
        }
    }

    // The factor of a left and a right strand: 1 where one of them stands for an empty place.
    pub(crate) fn pair_factor(&self, left: u8, right: u8) -> Term
        requires left_in_bounds { left < self.now.weights.strands }
        requires right_in_bounds { right < self.now.weights.strands }
        requires weighs { (eqb left 0 || eqb right 0) ≡ false → Weighs 400000 (pair_weight (weights_of self.now.weights) left right) }
        ensures { result ≡ pair_term (weights_of self.now.weights) left right }
    {
        if left == 0 || right == 0 {
            ONE
        } else {
            lifted(self.pair_row(left).of(right))
        }
    }
}
