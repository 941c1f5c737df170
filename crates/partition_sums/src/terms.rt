// Terms: their products and sums, cut to 31 digits, and exponents moved up and back.
ghost use Rattle.std.specs.Prelude.{◌≡◌, ◌^◌, ◌<◌, ◌≤◌};
ghost use Rattle.partition.specs.Terms.{Normal, times, plus_lower, plus};
ghost use Rattle.partition.specs.Weights as Weights;
ghost use Rattle.partition.specs.Summed as Summed;
ghost use Rattle.partition.specs.Summed.{lifted_term};
ghost use Rattle.partition.specs.inner.Used.{Weighs};

use fractions::Weight;
use partition::Term;

// The highest exponent of a weight in form; the lowest is as far below 0. By so much a term's is higher than its weight's.
pub(crate) const HIGHEST: i32 = 400_000;

// The product, cut to 31 digits. That a term is normal each call asks for, and no type says: a row holds 0 where no option stands, which is not.
#[tactic(auto, unfolding(partition::specs::Terms::times))]
pub(crate) fn term_times(a: Term, b: Term) -> Term
    requires normal { Normal a }
    requires normal_2 { Normal b }
    requires power_bound { (a.power ≤ 2 ^ 40) × (b.power ≤ 2 ^ 40) }
    ensures { result ≡ times a b }
{
    let digits = a.digits * b.digits;
    let power = a.power + b.power;
    if digits < 0x2000_0000_0000_0000 {
        Term {
            digits: digits / 0x4000_0000,
            power: power + 30,
        }
    } else {
        Term {
            digits: digits / 0x8000_0000,
            power: power + 31,
        }
    }
}

// The sum of two terms, cut to 31 digits, where the power of the second is not higher. Where it is lower by 31, nothing is left of its digits.
#[tactic(auto, unfolding(partition::specs::Terms::plus_lower))]
fn term_plus_lower(a: Term, b: Term) -> Term
    requires normal { Normal a }
    requires normal_2 { Normal b }
    requires power_le_power { (b.power ≤ a.power) × (a.power ≤ 2 ^ 40) }
    ensures { result ≡ plus_lower a b }
{
    let gap = a.power - b.power;
    if 31 <= gap {
        return a;
    }
    let digits = a.digits + (b.digits >> gap);
    // Returned early: of two arms the compiler makes a choice without a branch, for which each sum of a chain waits.
    if digits < 0x8000_0000 {
        return Term {
            digits,
            power: a.power,
        };
    }
    Term {
        digits: digits / 2,
        power: a.power + 1,
    }
}

// The sum of two terms, cut to 31 digits.
#[tactic(auto, unfolding(partition::specs::Terms::plus))]
pub(crate) fn term_plus(a: Term, b: Term) -> Term
    requires normal { Normal a }
    requires normal_2 { Normal b }
    requires power_bound { (a.power ≤ 2 ^ 40) × (b.power ≤ 2 ^ 40) }
    ensures { result ≡ plus a b }
{
    if a.power < b.power {
        term_plus_lower(b, a)
    } else {
        term_plus_lower(a, b)
    }
}

// A weight in form as a term.
pub(crate) fn lifted(weight: Weight) -> Term
    requires { Weighs 400000 weight }
    ensures { result ≡ lifted_term 400000 weight }
{
    Term {
        digits: u64::from(weight.digits),
        power: (weight.power + HIGHEST) as u64,
    }
}

// A term of so many factors, as a weight: each of them was moved up.
pub(crate) fn lowered(t: Term, factors: usize) -> Weight
    requires digits_bound { t.digits < 2 ^ 31 }
    requires power_bound { t.power ≤ 2 ^ 30 }
    requires factors_bound { factors ≤ 256 }
    ensures { result ≡ Summed.lowered 400000 factors t }
{
    let moved = HIGHEST as u64 * factors as u64;
    Weight {
        digits: t.digits as u32,
        power: (t.power as i64 - moved as i64) as i32,
    }
}

// Whether a weight is outside its form.
#[tactic(auto, unfolding(partition::specs::Weights::unformed))]
pub(crate) fn unformed(weight: Weight) -> bool
    ensures { result ≡ Weights.unformed weight }
{
    let digits_fit = (0x4000_0000..0x8000_0000).contains(&weight.digits);
    let power_fits = (-HIGHEST..=HIGHEST).contains(&weight.power);
    !(digits_fit && power_fits)
}
