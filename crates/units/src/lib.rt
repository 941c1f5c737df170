// The units of units.rs as one-field structs, with the sums and products that it allows among them, and the ambient of a design.
#![tactic(auto)]

ghost use Rattle.std.specs.Prelude.{◌≡◌};
ghost use Rattle.std.specs.Float.Ieee as Ieee;
ghost use Rattle.std.specs.Float.{binary64};
ghost use Rattle.units.specs.Ambient.{ambient_figures, ambient_at};

use reply::{Refusal, refused_if};
use std::ops::{Add, Div, Mul, Sub};

// A temperature, or a difference of two.
#[derive(Clone, Copy, PartialEq, Default, Debug)]
pub struct Kelvin(pub f64);

// An energy: dG, or RT.
#[derive(Clone, Copy, PartialEq, Default, Debug)]
pub struct KcalPerMol(pub f64);

// An entropy: dS, or the gas constant.
#[derive(Clone, Copy, PartialEq, Default, Debug)]
pub struct KcalPerMolKelvin(pub f64);

// The sum of two temperatures.
impl Add for Kelvin {
    type Output = Kelvin;

    ghost add_gives = { λ x y z. z.0 ≡ Ieee.add binary64 x.0 y.0 };

    fn add(self, rhs: Kelvin) -> Kelvin {
        Kelvin(self.0 + rhs.0)
    }
}

// Their difference: an excess.
impl Sub for Kelvin {
    type Output = Kelvin;

    ghost sub_gives = { λ x y z. z.0 ≡ Ieee.sub binary64 x.0 y.0 };

    fn sub(self, rhs: Kelvin) -> Kelvin {
        Kelvin(self.0 - rhs.0)
    }
}

// A temperature times an entropy: an energy.
impl Mul<KcalPerMolKelvin> for Kelvin {
    type Output = KcalPerMol;

    ghost mul_gives = { λ x y z. z.0 ≡ Ieee.mul binary64 x.0 y.0 };

    fn mul(self, rhs: KcalPerMolKelvin) -> KcalPerMol {
        KcalPerMol(self.0 * rhs.0)
    }
}

// The sum of two energies.
impl Add for KcalPerMol {
    type Output = KcalPerMol;

    ghost add_gives = { λ x y z. z.0 ≡ Ieee.add binary64 x.0 y.0 };

    fn add(self, rhs: KcalPerMol) -> KcalPerMol {
        KcalPerMol(self.0 + rhs.0)
    }
}

// Their difference.
impl Sub for KcalPerMol {
    type Output = KcalPerMol;

    ghost sub_gives = { λ x y z. z.0 ≡ Ieee.sub binary64 x.0 y.0 };

    fn sub(self, rhs: KcalPerMol) -> KcalPerMol {
        KcalPerMol(self.0 - rhs.0)
    }
}

// A plain number of them.
impl Mul<KcalPerMol> for f64 {
    type Output = KcalPerMol;

    ghost mul_gives = { λ x y z. z.0 ≡ Ieee.mul binary64 x y.0 };

    fn mul(self, rhs: KcalPerMol) -> KcalPerMol {
        KcalPerMol(self * rhs.0)
    }
}

// How many of the other it is.
impl Div for KcalPerMol {
    type Output = f64;

    ghost div_gives = { λ x y z. z ≡ Ieee.div binary64 x.0 y.0 };

    fn div(self, rhs: KcalPerMol) -> f64 {
        self.0 / rhs.0
    }
}

// The sum of two entropies.
impl Add for KcalPerMolKelvin {
    type Output = KcalPerMolKelvin;

    ghost add_gives = { λ x y z. z.0 ≡ Ieee.add binary64 x.0 y.0 };

    fn add(self, rhs: KcalPerMolKelvin) -> KcalPerMolKelvin {
        KcalPerMolKelvin(self.0 + rhs.0)
    }
}

// Their difference.
impl Sub for KcalPerMolKelvin {
    type Output = KcalPerMolKelvin;

    ghost sub_gives = { λ x y z. z.0 ≡ Ieee.sub binary64 x.0 y.0 };

    fn sub(self, rhs: KcalPerMolKelvin) -> KcalPerMolKelvin {
        KcalPerMolKelvin(self.0 - rhs.0)
    }
}

// An entropy times a temperature: an energy.
impl Mul<Kelvin> for KcalPerMolKelvin {
    type Output = KcalPerMol;

    ghost mul_gives = { λ x y z. z.0 ≡ Ieee.mul binary64 x.0 y.0 };

    fn mul(self, rhs: Kelvin) -> KcalPerMol {
        KcalPerMol(self.0 * rhs.0)
    }
}

// The gas constant.
pub const R_VAL: KcalPerMolKelvin = KcalPerMolKelvin(1.98720425864083 / 1000.0);

// 37 °C, at which energies are given; an excess temperature is counted from here.
pub const T37C: Kelvin = Kelvin(310.15);

// The lowest temperature that `ambient_at` takes, in kelvin.
const LOWEST_KELVIN: f64 = 200.0;

// The highest temperature that `ambient_at` takes, in kelvin.
const HIGHEST_KELVIN: f64 = 500.0;

// Document 01's ambient, in which a design is judged: RT, and the excess over 37 °C between strands and between strand and scaffold.
#[derive(Clone, Copy, PartialEq, Default, Debug)]
pub struct Ambient {
    pub rt: KcalPerMol,
    pub strand_excess: Kelvin,
    pub scaffold_excess: Kelvin,
}

impl Ambient {
    // Out of its three numbers, in kcal/mol and in kelvin.
    pub fn new(rt: f64, strand_excess: f64, scaffold_excess: f64) -> Ambient
        ensures rt { result.rt.0 ≡ rt }
        ensures strand_excess { result.strand_excess.0 ≡ strand_excess }
        ensures scaffold_excess { result.scaffold_excess.0 ≡ scaffold_excess }
    {
        Ambient {
            rt: KcalPerMol(rt),
            strand_excess: Kelvin(strand_excess),
            scaffold_excess: Kelvin(scaffold_excess),
        }
    }
}

// The ambient at a temperature, with one excess for both.
pub fn ambient_at(temperature: Kelvin) -> Result<Ambient, Refusal>
    ensures { ambient_figures result ≡ ambient_at temperature.0 }
{
    let known = doubles::in_range(LOWEST_KELVIN, HIGHEST_KELVIN, temperature.0);
    refused_if(Refusal::OutOfRange, !known)?;
    let excess = temperature - T37C;
    Ok(Ambient {
        rt: R_VAL * temperature,
        strand_excess: excess,
        scaffold_excess: excess,
    })
}
