// A design file's rows, gathered into what the calls take.
#![tactic(auto)]

mod amounts;
pub mod faults;
mod once;
mod parts;
pub mod place;
pub mod rows;
pub mod said;
