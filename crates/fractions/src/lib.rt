// Fractions of whole numbers, the numbers that fractions close in on, and weights.
#![tactic(auto)]

// digits × 2^power. In form it has 31 digits: from 2^30 up to, not including, 2^31.
#[derive(Clone, Copy, Default)]
pub struct Weight {
    pub digits: u32,
    pub power: i32,
}
