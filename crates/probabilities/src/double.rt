// A weight as a double.
ghost use Rattle.std.specs.Prelude.{◌≡◌, false, negsuc, ◌*◌, ◌+◌, ◌-◌, ◌^◌, ◌<◌, ◌≤◌};
ghost use Rattle.std.specs.Int.Signed.{lt_z};
ghost use Rattle.std.specs.Float.{binary64};
ghost use Rattle.std.specs.Float.Ieee.{round};
ghost use Rattle.std.specs.Float.Ieee.Exact.{HasValue};
ghost use Rattle.fractions.specs.Weight.{weight};
ghost use Rattle.probabilities.specs.Double as Double;

use doubles::{HIDDEN, double};

// 2^-126, by which digits come so far down that a power of two with a normal double does the rest.
const DOWN: f64 = 0.000000000000000000000000000000000000011754943508222875;

// The bits of infinity.
const INFINITY: u64 = 0x7ff0_0000_0000_0000;

// The power of two whose double has this exponent in its bits.
fn power_of_two(exponent: u64) -> f64
    requires some { 0 < exponent }
    requires exponent_bound { exponent < 2047 }
    ensures { HasValue result false (2 ^ 52 * 2 ^ (exponent - 1)) (2 ^ 1074) }
{
    double(exponent * HIDDEN)
}

// digits / 2^126 × the power of two with this exponent.
fn lowered(digits: u32, exponent: u64) -> f64
    requires digits_nonzero { 0 < digits }
    requires some { 0 < exponent }
    requires exponent_bound { exponent < 2047 }
    ensures { result ≡ round binary64 false (digits * (2 ^ 52 * 2 ^ (exponent - 1))) (2 ^ 126 * 2 ^ 1074) }
{
    f64::from(digits) * DOWN * power_of_two(exponent)
}

// digits × the power of two with this exponent.
fn raised(digits: u32, exponent: u64) -> f64
    requires digits_nonzero { 0 < digits }
    requires some { 0 < exponent }
    requires exponent_bound { exponent < 2047 }
    ensures { result ≡ round binary64 false (digits * (2 ^ 52 * 2 ^ (exponent - 1))) (2 ^ 1074) }
{
    f64::from(digits) * power_of_two(exponent)
}

// The nearest double of digits × 2^power, for digits that are not 0 and a power of -1,148 or more: from 2^1024 on it is infinity.
fn nearest_double(digits: u32, power: i32) -> f64
    requires digits_nonzero { 0 < digits }
    requires power_bound { lt_z power (negsuc 1147) ≡ false }
    ensures { result ≡ Double.nearest_double (weight digits power) }
{
    let size = u64::from(power.unsigned_abs());
    if power < 0 {
        return lowered(digits, 1149 - size);
    }
    if 1023 < size {
        return double(INFINITY);
    }
    raised(digits, 1023 + size)
}

// The nearest double of digits × 2^power; where that is not zero, at least the smallest above 0.
pub fn double_of(digits: u32, power: i32) -> f64
    ensures { result ≡ Double.double_of (weight digits power) }
{
    if digits == 0 {
        return 0.0;
    }
    let least = double(1);
    if power < -1148 {
        return least;
    }
    let nearest = nearest_double(digits, power);
    if nearest < least { least } else { nearest }
}
