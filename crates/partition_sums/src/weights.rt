// The weights of places and pairs, as they are lent.
ghost use Rattle.std.specs.Prelude.{◌≡◌, ◌<◌, length};
ghost use Rattle.partition.specs.Weights.{weight_at};

use fractions::Weight;

// Digits and exponents apart, with a cell for each position and strand, and for each left and right strand, row first.
#[derive(Clone, Copy)]
pub struct Weights<'a> {
    pub place_digits: &'a [u32],
    pub place_powers: &'a [i32],
    pub pair_digits: &'a [u32],
    pub pair_powers: &'a [i32],
    pub strands: usize,
}

// A row of them: the weights of each strand at one position, or of one left strand with each right one.
#[derive(Clone, Copy)]
pub(crate) struct WeightRow<'a> {
    pub(crate) digits: &'a [u32],
    pub(crate) powers: &'a [i32],
    ghost a_power_each: { length powers.now ≡ length digits.now },
}

impl WeightRow<'_> {
    // The weight of a strand.
    pub(crate) fn of(&self, strand: u8) -> Weight
        requires { strand < length self.now.digits.now }
        ensures { result ≡ weight_at self.now.digits.now self.now.powers.now strand }
    {
        let cell = usize::from(strand);
        Weight {
            digits: self.digits[cell],
            power: self.powers[cell],
        }
    }
}
