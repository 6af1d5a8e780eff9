// Lists for the definitions and proofs of all crates: what holds of each element, choices, sums and orders. It has no code.
#![tactic(auto)]
