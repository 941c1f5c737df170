// The code over a model: how many states it has and the one at a rank, both energies of a configuration, and the lowest configuration. It reads
// options and bonds, and knows no glues: a design, tables of bonds that are lent, and a ring use the same functions.
#![tactic(auto)]

mod attach;
pub mod bonds;
mod choices;
pub mod energies;
pub mod lent;
pub mod lowest;
pub mod options;
mod positions;
pub mod rings;
pub mod states;
mod sums;
