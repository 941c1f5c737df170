// What `from_params` gives, as a design takes it: theorems about the definitions; no code.
#![tactic(auto)]
