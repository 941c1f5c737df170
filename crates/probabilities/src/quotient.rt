// The quotient of two sums.
ghost use Rattle.std.specs.Prelude.{◌^◌, ◌<◌};
ghost use Rattle.fractions.specs.Weight.{InForm};
ghost use Rattle.probabilities.specs.Quotient.{Quotiented, Modest};

use fractions::Weight;

// v / w, cut to 31 digits; zero where v is zero.
pub fn quotient(v: Weight, w: Weight) -> Weight
    requires in_form { InForm w }
    requires digits_bound { v.digits < 2 ^ 31 }
    requires modest { Modest v × Modest w }
    ensures { Quotiented v w result }
{
    if v.digits == 0 {
        return Weight::default();
    }
    let shift = if w.digits <= v.digits { 30 } else { 31 };
    let shifted = u64::from(v.digits) << shift;
    Weight {
        digits: (shifted / u64::from(w.digits)) as u32,
        power: v.power - w.power - shift,
    }
}
