// Sums over the states of a model: each state's product of lent weights, what a constraint allows, and a pass over the positions that gives the sum
// within one part in 2^15. Definitions and laws; the code is in `partition_sums`.
#![tactic(auto)]

// A number of 31 digits times a power of two, in units of which every term on the way is a whole number.
#[derive(Clone, Copy, Default)]
pub struct Term {
    pub digits: u64,
    pub power: u64,
}
