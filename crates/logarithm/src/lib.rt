// The natural logarithm, near the exact one, which specs/Logarithm.antt defines by fractions.
#![tactic(auto)]

ghost use Rattle.std.specs.Prelude.{◌≡◌, ◌+◌, ◌-◌, ◌*◌, ◌/◌, ◌^◌, ◌<◌, ◌≤◌, not, true};
ghost use Rattle.logarithm.specs.Figure.{mul_units, ln_series, ln_reduced, ln_ratio, ln_whole, ln_of};
ghost use Rattle.logarithm.specs.Near.{has_logarithm};
ghost use Rattle.logarithm.specs.Answer.{ln_figures, ln_answer};

use doubles::{HIDDEN, bits, in_range};
use reply::{Refusal, refused_if};

// ln (32 / 32), ln (33 / 32), .. , ln (64 / 32), in units of 2^-54.
const STEPS: [u64; 33] = [
    0,
    554332922020656,
    1092116096887892,
    1614309137930962,
    2121790541970617,
    2615366581746321,
    3095779012233705,
    3563711775779674,
    4019796858195216,
    4464619421638421,
    4898722318886414,
    5322610076359984,
    5736752419200706,
    6141587400165834,
    6537524184600582,
    6924945535877722,
    7304210039150667,
    7675654095802210,
    8039593716390433,
    8396326136038560,
    8746131272959724,
    9089273048048125,
    9426000581121285,
    9756549277395923,
    10081141816066464,
    10399989051384373,
    10713290835370364,
    11021236770198579,
    11324006897345884,
    11621772329778550,
    11914695832734549,
    12202932358037081,
    12486629536330718,
];

// ln 2, in units of 2^-54.
const LN2: u64 = 12486629536330718;

// 1, in units of 2^-54.
pub const ONE: u64 = 1 << 54;

// A half of the 54 digits.
const HALF: u64 = 1 << 27;

// a × b / 2^54, by halves of 27 digits: at most three units below it.
#[tactic(auto, unfolding(crate::specs::Figure::mul_units))]
pub fn mul_units(a: u64, b: u64) -> u64
    requires { (a ≤ 2 ^ 54) × (b ≤ 2 ^ 54) }
    ensures { result ≡ mul_units a b }
{
    let (a_high, a_low) = (a / HALF, a % HALF);
    let (b_high, b_low) = (b / HALF, b % HALF);
    a_high * b_high + a_high * b_low / HALF + a_low * b_high / HALF
}

// d / a in units of 2^-54, by six digits of nine bits.
fn quotient(d: u64, a: u64) -> u64
    requires { (d < a) × (a ≤ 2 ^ 53) }
    ensures { result ≡ d * 2 ^ 54 / a }
{
    let mut q = 0;
    let mut rest = d;
    // By number: a digit of the quotient each.
    for _ in 0..6u32 {
        let s = rest * 512;
        q = q * 512 + s / a;
        rest = s % a;
    }
    q
}

// u + u² / 2 + .. + u^8 / 8, in units of 2^-54.
fn ln_series(u: u64) -> u64
    requires { u ≤ 2 ^ 53 }
    ensures { result ≡ ln_series u }
{
    let mut power = ONE;
    let mut sum = 0;
    // By number: term j is the power divided by it.
    for j in 1..=8 {
        power = mul_units(power, u);
        sum += power / j;
    }
    sum
}

// ln (2^k × c / 32 × 1 / (1 − u)), in units of 2^-46.
fn reduced(c: u64, u: u64, k: u64) -> u64
    requires { (32 ≤ c) × (c ≤ 64) × (u ≤ 2 ^ 53) × (k ≤ 60) }
    ensures { result ≡ ln_reduced c u k }
{
    let step = STEPS[(c - 32) as usize];
    (step + ln_series(u) + k * LN2) / 256
}

// ln (2^k a / b) for b ≤ a ≤ 2 b, in units of 2^-46: at most two units below it.
fn ln_ratio(a: u64, b: u64, k: u64) -> u64
    requires { (0 < b) × (b ≤ a) × (a ≤ 2 * b) × (a ≤ 2 ^ 48) × (k ≤ 60) }
    ensures { result ≡ ln_ratio a b k }
{
    let c = 32 * a / b;
    reduced(c, quotient(32 * a - c * b, 32 * a), k)
}

// ln (a / b) of whole numbers, for b ≤ a, in units of 2^-46: at most two units below it.
pub fn ln_whole(a: u64, b: u64) -> u64
    requires { (0 < b) × (b ≤ a) × (a ≤ 2 ^ 48) }
    ensures { result ≡ ln_whole a b }
{
    let k = (a / b).ilog2();
    ln_ratio(a, b << k, u64::from(k))
}

// The smallest argument of `ln`, 2^-60.
const LEAST: f64 = 0.0000000000000000008673617379884035;

// The largest, 2^10.
const MOST: f64 = 1024.0;

// The field of the exponent of a double from 1 up to 2.
const FIELD_OF_ONE: u64 = 1023;

// A unit of `ln_ratio` is one part in so many.
const UNITS: f64 = 70368744177664.0;

// The same as ln_ratio of m / 2^52, its parts divided by 32 beforehand.
fn from_one(m: u64, k: u64) -> u64
    requires { (2 ^ 52 ≤ m) × (m < 2 ^ 53) × (k ≤ 60) }
    ensures { result ≡ ln_ratio m (2 ^ 52) k }
{
    let c = m / 140737488355328;
    reduced(c, quotient(m - c * 140737488355328, m), k)
}

// The same as ln_ratio of 2^53 / m: a division by a power of two takes no digits.
fn below_one(m: u64, k: u64) -> u64
    requires { (2 ^ 52 ≤ m) × (m < 2 ^ 53) × (k ≤ 60) }
    ensures { result ≡ ln_ratio (2 ^ 53) m k }
{
    let c = 288230376151711744 / m;
    reduced(c, (288230376151711744 - c * m) / 16, k)
}

// The logarithm of x, which has one. Below 1 it is that of the inverse with its sign turned: so nothing is subtracted, and it lies on one side of the
// exact one.
fn ln_between(x: f64) -> f64
    requires { has_logarithm x ≡ true }
    ensures { result ≡ ln_of x }
{
    let bits = bits(x);
    let field = bits / HIDDEN;
    let m = bits % HIDDEN + HIDDEN;
    if field < FIELD_OF_ONE {
        return -(below_one(m, FIELD_OF_ONE - 1 - field) as f64 / UNITS);
    }
    from_one(m, field - FIELD_OF_ONE) as f64 / UNITS
}

// Whether x lies from 2^-60 to 2^10, both included.
fn has_logarithm(x: f64) -> bool
    ensures { result ≡ has_logarithm x }
{
    in_range(LEAST, MOST, x)
}

// The natural logarithm of a double from 2^-60 to 2^10.
pub fn ln(x: f64) -> Result<f64, Refusal>
    ensures { ln_figures result ≡ ln_answer x }
{
    refused_if(Refusal::TooDilute, !has_logarithm(x))?;
    Ok(ln_between(x))
}
