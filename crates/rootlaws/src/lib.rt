// The laws of the root, on whole numbers.
#![tactic(auto)]
