// Digits of a number in a base of up to 16: their worth, and how they are written.
ghost use Rattle.std.specs.Prelude.{position, ◌≡◌, ◌+◌, ◌≤◌, ◌<◌, min, length};
ghost use Rattle.std.proofs.lemmas.List.Edits.{sets};
ghost use Rattle.decimals.specs.Digits.{digit_value, not_digit, digit_run, numeral, digit_of, digits_in, places};

// What a byte is worth as a digit; 16 where it is none, so that one comparison with the base tells a digit of it.
#[tactic(auto, unfolding(crate::specs::Digits::digit_value))]
fn digit_value(b: u8) -> u64
    ensures { (result ≡ digit_value b) × (result ≤ 16) }
{
    match b {
        b'0'..=b'9' => u64::from(b) - 48,
        b'a'..=b'f' => u64::from(b) - 87,
        b'A'..=b'F' => u64::from(b) - 55,
        _ => 16,
    }
}

// Where the first byte is that is no digit of the base.
fn first_other(text: &[u8], base: u64) -> Option<usize>
    ensures { result ≡ position (not_digit base) text.now }
{
    text.iter().position(|&b| base <= digit_value(b))
}

// How many digits of the base a text begins with.
pub(crate) fn digit_run(text: &[u8], base: u64) -> usize
    ensures { (result ≡ digit_run base text.now) × (result ≤ length text.now) }
{
    first_other(text, base).unwrap_or(text.len())
}

// The number that digits stand for, after those that stand for `start`; the limit where it is above that.
pub(crate) fn read_digits(digits: &[u8], base: u64, start: u64, limit: u64) -> u64
    requires { (1 ≤ base) × (16 ≤ limit) × (start ≤ limit) }
    ensures { result ≡ min limit (numeral base start digits.now) }
{
    let mut n = start;
    for b in digits {
        let digit = digit_value(*b);
        if (limit - digit) / base < n {
            return limit;
        }
        n = n * base + digit;
    }
    n
}

// The digit of a number below 16.
fn digit(n: u64) -> u8
    requires { n < 16 }
    ensures { result ≡ digit_of n }
{
    if n < 10 {
        b'0' + n as u8
    } else {
        b'a' + (n as u8 - 10)
    }
}

// The last digits of n, as many as there are lent bytes.
pub(crate) fn put_digits(n: u64, base: u64, out: &mut [u8])
    requires { (1 ≤ base) × (base ≤ 16) }
    ensures { out.new ≡ digits_in base (length out.old) n }
{
    let mut left = n;
    // By number: of what is written through a `rev` of an `iter_mut` nothing is known.
    for i in (0..out.len()).rev() {
        out[i] = digit(left % base);
        left /= base;
    }
}

// How many decimal digits n has.
pub(crate) fn count_places(n: u64) -> usize
    ensures { (result ≡ places 10 19 n) × (result ≤ 20) }
{
    let mut left = n;
    let mut count = 1;
    // By the value that is left: how often it is divided is what is asked.
    while 10 <= left {
        left /= 10;
        count += 1;
    }
    count
}
