// Proofs only: what the angle functions are, and the laws that they keep.
#![tactic(auto)]
