//! Lemmas on lists, tests, counts and orderings that say nothing about histories. It holds no code: other crates'
//! proofs cite its proof files.
#![tactic(auto)]
