// Doubles: their bits, and the test of a range; specs/ has decimals as papers print them, and sums.
#![tactic(auto)]

ghost use Rattle.std.specs.Prelude.{◌≡◌};
ghost use Rattle.std.specs.Float.Ieee as Ieee;
ghost use Rattle.std.specs.Float.{binary64};
ghost use Rattle.doubles.specs.Range.{within};

use std::num;

// The bit of a double's sign.
pub const SIGN: u64 = 1 << 63;

// The digit that the bits of a normal double leave out.
pub const HIDDEN: u64 = 1 << 52;

// Whether x is from low to high, both included. A NaN is in no range, and between finite ends no infinity is.
pub fn in_range(low: f64, high: f64, x: f64) -> bool
    ensures { result ≡ within low high x }
{
    low <= x && x <= high
}

// The bits of x; of a NaN, the one pattern that the logic writes for all.
pub fn bits(x: f64) -> u64
    ensures { result ≡ Ieee.to_bits binary64 x }
{
    num::f64_to_bits_with_nan(x)
}

// The double with these bits. Every pattern of a NaN gives the one NaN.
pub fn double(bits: u64) -> f64
    ensures { result ≡ Ieee.of_bits binary64 bits }
{
    num::f64_from_bits_with_nan(bits)
}
