// Numbers as text: the words of a design file read as doubles, and figures printed.
#![tactic(auto)]

mod digits;
mod printing;
mod reading;

ghost use Rattle.std.specs.Prelude.{◌≡◌, ◌≤◌, IfOk, length, take};
ghost use Rattle.decimals.specs.Digits.{digits_in, decimal_digits};
ghost use Rattle.decimals.specs.Number.{number_of, scaled_of};
ghost use Rattle.decimals.specs.Print.{printed, laid, fixed_printed, fixed_out};

use digits::{count_places, put_digits, read_digits};
use doubles::{SIGN, double};
use printing::{in_millionths, write_millionths};
use reading::{decimal, is_pattern};

// The bits of 2 ^ 43.
const UNPRINTABLE: u64 = 0x42a0_0000_0000_0000;

// Why a word of a design file is no number.
#[derive(Clone, Copy, PartialEq, Eq, Debug)]
pub enum NumberFault {
    // No decimal, and no pattern of bits.
    NotANumber,
    // More than 17 digits from the first that is not 0.
    TooManyDigits,
    // An exponent, or a last place, that is too large or too small.
    OutOfReach,
}

// Why a text was not printed.
#[derive(Clone, Copy, PartialEq, Eq, Debug)]
pub enum PrintFault {
    // It is longer than the lent slice.
    TooShort,
    // The number has no such text.
    Unprintable,
}

// Reads a word of a design file as a number.
#[tactic(auto, unfolding(crate::specs::Number::number_of))]
pub fn read_number(word: &[u8]) -> Result<f64, NumberFault>
    ensures { result ≡ number_of word.now }
{
    if is_pattern(word) {
        let bits = read_digits(&word[2..], 16, 0, u64::MAX);
        return Ok(double(bits));
    }
    decimal(word, 0)
}

// Reads a word as a decimal that counts units of 10 ^ -power.
#[tactic(auto, unfolding(crate::specs::Number::scaled_of))]
pub fn read_scaled(word: &[u8], power: u8) -> Result<f64, NumberFault>
    ensures { result ≡ scaled_of word.now power }
{
    decimal(word, power)
}

// The last `digits` hexadecimal digits of n, in lower case: 16 are the bits of a double, 8 a word of a deck. The length of a printed text is
// returned: it stands in the first lent bytes.
pub fn write_hex(n: u64, digits: usize, out: &mut [u8]) -> Result<usize, PrintFault>
    ensures answer { (result ≡ printed (digits_in 16 digits n) out.old) × (out.new ≡ laid (digits_in 16 digits n) out.old) }
    ensures front { IfOk result (λ size. (size ≤ length out.old) × (take size out.new ≡ digits_in 16 digits n)) }
{
    if out.len() < digits {
        return Err(PrintFault::TooShort);
    }
    put_digits(n, 16, &mut out[..digits]);
    Ok(digits)
}

// A natural number in decimal digits.
pub fn write_count(n: u64, out: &mut [u8]) -> Result<usize, PrintFault>
    ensures answer { (result ≡ printed (decimal_digits n) out.old) × (out.new ≡ laid (decimal_digits n) out.old) }
    ensures front { IfOk result (λ size. (size ≤ length out.old) × (take size out.new ≡ decimal_digits n)) }
{
    let count = count_places(n);
    if out.len() < count {
        return Err(PrintFault::TooShort);
    }
    put_digits(n, 10, &mut out[..count]);
    Ok(count)
}

// A double with six places: the nearest such decimal, of two equally near the one whose last digit is even. What rounds to 0 has no sign.
// 2 ^ 43 in size and more, infinities and NaN are unprintable.
pub fn write_fixed(x: f64, out: &mut [u8]) -> Result<usize, PrintFault>
    ensures { (result ≡ fixed_printed x out.old) × (out.new ≡ fixed_out x out.old) }
{
    let bits = doubles::bits(x);
    let size = bits % SIGN;
    if UNPRINTABLE <= size {
        return Err(PrintFault::Unprintable);
    }
    write_millionths(SIGN <= bits, in_millionths(size), out)
}
