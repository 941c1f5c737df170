// Definitions and laws on lists that several crates cite.
#![tactic(auto)]
