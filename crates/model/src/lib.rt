// The model of a scaffold with strands: its states, their order and count, both energies, and the bounds. Definitions and laws; no code.
#![tactic(auto)]
