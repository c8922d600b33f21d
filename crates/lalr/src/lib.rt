// Definitions and proofs only.
#![tactic(auto)]
