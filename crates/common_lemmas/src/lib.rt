//! Lemmas on tests, numbers, lists, options, byte strings and results, for the proofs of the crates above. There is no code.
#![tactic(auto)]
