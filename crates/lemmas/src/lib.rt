//! Lemmas about numbers, tests and lists alone, which the proofs of several crates use. There is no code here: what the crate hands out
//! stands in `proofs/Exported.antt`.
#![tactic(auto)]
