// Doubles in decimals with six places.
ghost use Rattle.std.specs.Prelude.{◌≡◌, ◌*◌, ◌^◌, ◌≤◌, ◌<◌, length, replicate};
ghost use Rattle.std.proofs.lemmas.List.Edits.{sets};
ghost use Prim.Native.Nat.{compare};
ghost use Rattle.std.specs.Float.Ieee as Ieee;
ghost use Rattle.std.specs.Float.Ieee.{nearest};
ghost use Rattle.std.specs.Float.{binary64};
ghost use Rattle.std.specs.Float.Ieee.Nearest.{closest};
ghost use Rattle.decimals.specs.Print.{minus_signs, fixed, millionths, printed, laid};

use super::PrintFault;
use super::digits::{count_places, put_digits};
use doubles::HIDDEN;

// How many millionths are 1.
const MILLION: u64 = 1_000_000;

// The quotient, or the next number up, by how the doubled remainder compares with the divisor.
fn rounded(quotient: u64, doubled: u128, divisor: u128) -> u64
    requires { quotient < 2 ^ 63 }
    ensures { result ≡ nearest quotient (compare doubled divisor) }
{
    if quotient % 2 == 0 {
        if doubled <= divisor {
            return quotient;
        }
        return quotient + 1;
    }
    if divisor <= doubled {
        return quotient + 1;
    }
    quotient
}

// 2 to this is more than twice the millionths of any significand, so that from there on none is nearest.
const BEYOND: usize = 74;

// significand * 10 ^ 6 / 2 ^ shift to the nearest whole number, of two equally near the even one.
fn shifted_millionths(significand: u64, shift: usize) -> u64
    requires { (significand < 2 ^ 53) × (10 ≤ shift) }
    ensures { result ≡ closest (significand * 10 ^ 6) (2 ^ shift) }
{
    if BEYOND <= shift {
        return 0;
    }
    let product = u128::from(significand) * u128::from(MILLION);
    let divisor = 1u128 << shift;
    let quotient = (product >> shift) as u64;
    rounded(quotient, product % divisor * 2, divisor)
}

// The double with these bits, which lies from 0 up to 2 ^ 43, in millionths.
pub(crate) fn in_millionths(bits: u64) -> u64
    requires { bits < 1066 * 2 ^ 52 }
    ensures { result ≡ millionths (Ieee.of_bits binary64 bits) }
{
    let (field, digits) = (bits / HIDDEN, bits % HIDDEN);
    if field == 0 {
        return shifted_millionths(digits, 1074);
    }
    shifted_millionths(HIDDEN + digits, 1075 - field as usize)
}

// How many minus signs stand in front: one, but none before 0.
fn minus_signs(negative: bool, n: u64) -> usize
    ensures { (result ≡ minus_signs negative n) × (result ≤ 1) }
{
    usize::from(negative && n != 0)
}

// n millionths with six places.
pub(crate) fn write_millionths(negative: bool, n: u64, out: &mut [u8]) -> Result<usize, PrintFault>
    ensures { (result ≡ printed (fixed negative n) out.old) × (out.new ≡ laid (fixed negative n) out.old) }
{
    let signs = minus_signs(negative, n);
    let whole = count_places(n / MILLION);
    let point = signs + whole;
    if out.len() < point + 7 {
        return Err(PrintFault::TooShort);
    }
    out[..signs].fill(b'-');
    put_digits(n / MILLION, 10, &mut out[signs..point]);
    out[point] = b'.';
    put_digits(n % MILLION, 10, &mut out[point + 1..point + 7]);
    Ok(point + 7)
}
