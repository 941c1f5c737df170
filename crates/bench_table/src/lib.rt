// Document 01's bench table: its daggered lines as one fact about the definitions. Definitions and proofs; no code.
#![tactic(auto)]
