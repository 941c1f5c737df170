// What calls on a design give beside plain numbers.
use units::KcalPerMol;

// The chain energy.
#[derive(Clone, Copy, Default)]
pub struct ChainEnergy {
    // The sum as it is, a plain number.
    pub bare: f64,
    // The sum times RT.
    pub times_rt: KcalPerMol,
}
