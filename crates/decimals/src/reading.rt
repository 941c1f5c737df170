// A word taken apart as a decimal, and the number that it stands for.
ghost use Rattle.std.specs.Prelude.{◌≡◌, ◌⊎◌, ◌*◌, ◌^◌, ◌≤◌, ◌<◌, ◌++◌, length, min, IfOk};
ghost use Rattle.std.specs.Float.{binary64};
ghost use Rattle.std.specs.Float.Ieee.{round};
ghost use Rattle.decimals.specs.Digits.{numeral};
ghost use Rattle.decimals.specs.Number.{begins_with, sign_length, point_length, all_digits, exponent_after, exponent_of, in_units, placed, valued, is_pattern, parts_of, decimal_of};

use super::NumberFault;
use super::digits::{digit_run, read_digits};
use fast_float::from_parts;

// One more than the digits of a decimal may stand for.
const TOO_MANY: u64 = 100_000_000_000_000_000;

// The first exponent that is out of reach.
const TOO_HIGH: u64 = 1000;

// The largest power of ten, of either sign, that the last digit may stand for.
const FARTHEST: usize = 400;

// The power of ten behind a decimal's digits: 10 ^ up / 10 ^ down, of which one is 0. Two naturals and no sign, since what is proved is of naturals.
#[derive(Clone, Copy)]
struct Exponent {
    up: u64,
    down: u64,
}

// Whether a text begins with a byte.
fn begins_with(text: &[u8], b: u8) -> bool
    ensures { result ≡ begins_with b text.now }
{
    !text.is_empty() && text[0] == b
}

// How long the sign in front of a text is.
fn sign_length(text: &[u8]) -> usize
    ensures { (result ≡ sign_length text.now) × (result ≤ length text.now) }
{
    usize::from(begins_with(text, b'+') || begins_with(text, b'-'))
}

// How long the point in front of a text is.
fn point_length(text: &[u8]) -> usize
    ensures { (result ≡ point_length text.now) × (result ≤ length text.now) }
{
    usize::from(begins_with(text, b'.'))
}

// Whether a text is nothing but digits, and has one.
fn all_digits(text: &[u8]) -> bool
    ensures { result ≡ all_digits text.now }
{
    !text.is_empty() && digit_run(text, 10) == text.len()
}

// An exponent after its letter.
#[tactic(auto, unfolding(crate::specs::Number::exponent_after))]
fn exponent_after(text: &[u8]) -> Result<Exponent, NumberFault>
    ensures value { result ≡ exponent_after text.now }
    ensures small { IfOk result (λ exponent. exponent.down ≤ 1000) }
{
    let digits = &text[sign_length(text)..];
    if !all_digits(digits) {
        return Err(NumberFault::NotANumber);
    }
    let power = read_digits(digits, 10, 0, TOO_HIGH);
    if begins_with(text, b'-') {
        Ok(Exponent { up: 0, down: power })
    } else {
        Ok(Exponent { up: power, down: 0 })
    }
}

// What follows a decimal's digits: nothing, or an exponent.
#[tactic(auto, unfolding(crate::specs::Number::exponent_of))]
fn exponent_of(rest: &[u8]) -> Result<Exponent, NumberFault>
    ensures value { result ≡ exponent_of rest.now }
    ensures small { IfOk result (λ exponent. exponent.down ≤ 1000) }
{
    match rest {
        [] => Ok(Exponent { up: 0, down: 0 }),
        [b'e' | b'E', text @ ..] => exponent_after(text),
        _ => Err(NumberFault::NotANumber),
    }
}

// The double nearest to digits * 10 ^ up / 10 ^ down, of which powers one is 1.
fn nearest(negative: bool, digits: u64, up: usize, down: usize) -> f64
    requires { (up ≤ 400) × (down ≤ 400) × ((up ≡ 0) ⊎ (down ≡ 0)) }
    ensures { result ≡ round binary64 negative (digits * 10 ^ up) (10 ^ down) }
{
    if down == 0 {
        return from_parts(negative, digits, up as i64);
    }
    from_parts(negative, digits, -(down as i64))
}

// Digits whose last stands for 10 ^ up / 10 ^ down.
#[tactic(auto, unfolding(crate::specs::Number::placed, crate::specs::Number::nearest_double))]
fn place(negative: bool, digits: u64, up: usize, down: usize) -> Result<f64, NumberFault>
    ensures { result ≡ placed negative digits up down }
{
    let above = up.saturating_sub(down);
    let below = down.saturating_sub(up);
    if FARTHEST < above || FARTHEST < below {
        return Err(NumberFault::OutOfReach);
    }
    Ok(nearest(negative, digits, above, below))
}

// The number that the digits before the point and those after it stand for together; the limit where it is above that.
fn significand(whole: &[u8], fraction: &[u8]) -> u64
    ensures { result ≡ min TOO_MANY (numeral 10 0 (whole.now ++ fraction.now)) }
{
    read_digits(fraction, 10, read_digits(whole, 10, 0, TOO_MANY), TOO_MANY)
}

// The digits before the point and those after it, with an exponent.
#[tactic(auto, unfolding(crate::specs::Number::valued))]
fn value(
    negative: bool,
    whole: &[u8],
    fraction: &[u8],
    exponent: Exponent,
) -> Result<f64, NumberFault>
    ensures { result ≡ valued negative whole.now fraction.now exponent }
{
    if whole.is_empty() && fraction.is_empty() {
        return Err(NumberFault::NotANumber);
    }
    let digits = significand(whole, fraction);
    if TOO_MANY <= digits {
        return Err(NumberFault::TooManyDigits);
    }
    if TOO_HIGH <= exponent.up || TOO_HIGH <= exponent.down {
        return Err(NumberFault::OutOfReach);
    }
    // No exponent in reach makes up for so many places, and the sum below has room.
    if 0xffff < fraction.len() {
        return Err(NumberFault::OutOfReach);
    }
    place(
        negative,
        digits,
        exponent.up as usize,
        fraction.len() + exponent.down as usize,
    )
}

// The number that a word stands for as a decimal which counts units of 10 ^ -power.
#[tactic(auto, unfolding(crate::specs::Number::decimal_of, crate::specs::Number::parts_of))]
pub(crate) fn decimal(word: &[u8], power: u8) -> Result<f64, NumberFault>
    ensures { result ≡ decimal_of (parts_of word.now) (in_units power (exponent_of (parts_of word.now).rest)) }
{
    let body = &word[sign_length(word)..];
    let (whole, after) = body.split_at(digit_run(body, 10));
    let places = &after[point_length(after)..];
    let (fraction, rest) = places.split_at(digit_run(places, 10));
    let Exponent { up, down } = exponent_of(rest)?;
    let down = down + u64::from(power);
    value(
        begins_with(word, b'-'),
        whole,
        fraction,
        Exponent { up, down },
    )
}

// Whether a word is 0x and 16 hexadecimal digits.
pub(crate) fn is_pattern(word: &[u8]) -> bool
    ensures { result ≡ is_pattern word.now }
{
    match word {
        [b'0', b'x', digits @ ..] => digits.len() == 16 && digit_run(digits, 16) == 16,
        _ => false,
    }
}
