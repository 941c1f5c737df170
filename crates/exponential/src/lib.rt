// The exponential of a double as a weight, near the exact one, which specs/Exponential.antt defines by fractions.
#![tactic(auto)]

ghost use Rattle.std.specs.Prelude.{◌≡◌, true, ◌+◌, ◌*◌, ◌^◌, ◌<◌, ◌≤◌};
ghost use Rattle.fractions.specs.Frac.{frac};
ghost use Rattle.exponential.specs.Exponential.{ExpAtMost, ExpAtLeast};
ghost use Rattle.exponential.specs.Near.{ExpOf, has_exponential};
ghost use Rattle.exponential.specs.Answer.{ExpAnswered};
ghost use Rattle.exponential.specs.Parts.{Weighed, Cut};

use doubles::{HIDDEN, SIGN};
use fractions::Weight;
use logarithm::{ONE, mul_units};
use reply::Refusal;

// The largest argument, of either sign.
const MOST: f64 = 80000.0;

// ln 2, in units of 2^-46.
const LN2: u64 = 48775896626291;

// digits × 2^power / 2^30. No Weight, whose power is signed: the inverse is taken of whole numbers first, and proved over them.
#[derive(Clone, Copy)]
struct Raised {
    digits: u64,
    power: u64,
}

// 2^54 × exp (s / 2^46), for s below ln 2, by the series: no more, and less by at most 180.
fn exp_rest(s: u64) -> u64
    requires { s < 48775896626291 }
    ensures exp_at_least { ExpAtLeast s (2 ^ 46) (frac result (2 ^ 54)) }
    ensures exp_at_most { ExpAtMost s (2 ^ 46) (frac (result + 180) (2 ^ 54)) }
    ensures lower_bound { (2 ^ 54 ≤ result) × (result < 2 ^ 55) }
    ensures value { s ≡ 0 → result ≡ 2 ^ 54 }
{
    let u = s * 256;
    let mut term = ONE;
    let mut sum = ONE;
    // By number: term j is the one before it, times u / j.
    for j in 1..=15 {
        term = mul_units(term, u) / j;
        sum += term;
    }
    sum
}

// exp (y / 2^46): the multiples of ln 2 are powers of two.
fn exp_up(y: u64) -> Raised
    requires { y ≤ 80000 * 2 ^ 46 }
    ensures { Weighed y result.digits result.power }
{
    let rest = exp_rest(y % LN2);
    Raised {
        digits: rest / (1 << 24),
        power: y / LN2,
    }
}

// The size of x in units of 2^-46, cut to a whole number.
fn size_units(x: f64) -> u64
    requires { has_exponential x ≡ true }
    ensures { Cut x result }
{
    let a = f64::to_bits(x) % SIGN;
    let exponent = a / HIDDEN;
    let digits = a % HIDDEN + HIDDEN;
    if exponent < 977 {
        return 0;
    }
    if exponent < 1029 {
        return digits >> (1029 - exponent);
    }
    digits << (exponent - 1029)
}

// The exponential of a double within the ends.
pub fn exp_weight(x: f64) -> Weight
    requires { has_exponential x ≡ true }
    ensures { ExpOf x result }
{
    let raised = exp_up(size_units(x));
    let power = raised.power as i32;
    if x < 0.0 {
        let digits = (1 << 61) / raised.digits;
        if digits == 1 << 31 {
            return Weight {
                digits: 1 << 30,
                power: -30 - power,
            };
        }
        return Weight {
            digits: digits as u32,
            power: -31 - power,
        };
    }
    Weight {
        digits: raised.digits as u32,
        power: power - 30,
    }
}

// The exponential of a double up to 80,000 in size.
pub fn exp(x: f64) -> Result<Weight, Refusal>
    ensures { ExpAnswered x result }
{
    if !doubles::in_range(-MOST, MOST, x) {
        return Err(Refusal::OutOfRange);
    }
    Ok(exp_weight(x))
}
