//! Each accepted program has the facts on which the flow of its operations rests. Each law is the contract of a
//! function that does nothing, and is proved by the lemma in proofs/ that says the same.
#![tactic(auto)]

pub mod expressions;
pub mod programs;
pub mod statements;
