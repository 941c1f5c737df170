// Numbers as the list writes them. A word is read without care, and then the number is written out and compared with it, so that
// what is not such a number is told from what is.
ghost use Rattle.std.specs.Prelude.{◌≡◌, ◌≤◌, true, IfSome};
ghost use Rattle.decimals.specs.Digits.{digits_in};
ghost use Rattle.replay.specs.Text.{hex_text, Decimal};

use decimals::{write_count, write_hex};

// Whether a word is the last so many hex digits of x, 16 at most. It is a `match`, here and below, since a proof does not learn what the
// closure of `is_ok_and` answered; and two functions, since one for both would be handed what was written and its size, and be no shorter.
pub(crate) fn is_hex(word: &[u8], x: u64, digits: usize) -> bool
    ensures { result ≡ true → word.now ≡ digits_in 16 digits x }
{
    let mut text = [0u8; 16];
    match write_hex(x, digits, &mut text) {
        Ok(size) => word == &text[..size],
        Err(_) => false,
    }
}

// Whether a word is x in decimal.
pub(crate) fn is_decimal(word: &[u8], x: u64) -> bool
    ensures { result ≡ true → Decimal word.now x }
{
    let mut text = [0u8; 20];
    match write_count(x, &mut text) {
        Ok(size) => word == &text[..size],
        Err(_) => false,
    }
}

// Digits of a base, read without care.
pub(crate) fn value(word: &[u8], base: u32) -> Option<u64>
    requires { (2 ≤ base) × (base ≤ 36) }
{
    let mut x: u64 = 0;
    for letter in word {
        let digit = char::from(*letter).to_digit(base)?;
        x = x
            .wrapping_mul(u64::from(base))
            .wrapping_add(u64::from(digit));
    }
    Some(x)
}

// 64 bits as 16 hex digits.
pub(crate) fn hex(word: &[u8]) -> Option<u64>
    ensures { IfSome result (λ bits. word.now ≡ hex_text bits) }
{
    let x = value(word, 16)?;
    is_hex(word, x, 16).then_some(x)
}

// A number in decimal.
pub(crate) fn decimal(word: &[u8]) -> Option<u64>
    ensures { IfSome result (Decimal word.now) }
{
    let x = value(word, 10)?;
    is_decimal(word, x).then_some(x)
}

// A number of 32 bits in decimal.
pub(crate) fn whole(word: &[u8]) -> Option<u32>
    ensures { IfSome result (Decimal word.now) }
{
    u32::try_from(decimal(word)?).ok()
}

// A number up to 255 in decimal.
pub(crate) fn small(word: &[u8]) -> Option<u8>
    ensures { IfSome result (Decimal word.now) }
{
    u8::try_from(decimal(word)?).ok()
}
