// A design made ready for calls that ask for many of its states: its options and their number, the bonds that states and the search read, and the
// energy of a state over these. What one state takes anew is then a few sums.
#![tactic(auto)]

pub mod bonds;
pub mod options;
pub mod sums;
