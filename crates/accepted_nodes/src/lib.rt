//! Laws of the nodes of accepted programs, kind by kind: what an expression or a statement has where no rule is broken. Each
//! law is the contract of a function that does nothing, and is proved by the lemma in proofs/ that says the same.
#![tactic(auto)]

pub mod members;
pub mod values;
