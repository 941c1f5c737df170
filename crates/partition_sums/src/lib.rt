// The code of the sums over a model's states: it reads options and weights that are lent, and knows no glues. What it gives is defined, and shown to be
// document 02's, in `partition`.
#![tactic(auto)]

mod allowed;
pub mod constraint;
pub mod ends;
pub mod forms;
pub mod lent;
mod rows;
pub mod sums;
mod terms;
pub mod weights;
