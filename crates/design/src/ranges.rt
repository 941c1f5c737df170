// The test of a range, of many numbers.
ghost use Rattle.std.specs.Prelude.{◌≡◌};
ghost use Rattle.std.specs.Float.Ieee.{neg};
ghost use Rattle.lists.specs.Find.{any};
ghost use Rattle.design.specs.Checks.{outside};

use std::simd::prelude::*;

// Whether a number is beyond ±most.
fn one_beyond(most: f64, numbers: &[f64]) -> bool
    ensures { result ≡ any (outside (neg most) most) numbers.now }
{
    numbers
        .iter()
        .any(|number| !doubles::in_range(-most, most, *number))
}

// Whether one of sixteen numbers is beyond ±most.
fn some_of_sixteen(most: f64, numbers: &[f64; 16]) -> bool
    ensures { result ≡ any (outside (neg most) most) numbers.now }
{
    let lanes = f64x16::from_slice(numbers);
    let inside = lanes.simd_ge(f64x16::splat(-most)) & lanes.simd_le(f64x16::splat(most));
    !inside.all()
}

// Whether a number is beyond ±most: sixteen at once, by comparisons alone, which take as long whatever the numbers are. Squares would take one comparison in
// place of two, and a hundred times as long where they are subnormal.
pub fn some_beyond(most: f64, numbers: &[f64]) -> bool
    ensures { result ≡ any (outside (neg most) most) numbers.now }
{
    let (sixteens, rest) = numbers.as_chunks::<16>();
    sixteens
        .iter()
        .any(|sixteen| some_of_sixteen(most, sixteen))
        || one_beyond(most, rest)
}
