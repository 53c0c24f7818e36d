//! Laws of accepted programs: what it means, node by node and class by class, that no rule is broken. Each law is the
//! contract of a function that does nothing, and is proved by the lemma in proofs/ that says the same.
#![tactic(auto)]

pub mod classes;
pub mod methods;
pub mod nodes;
pub mod scopes;
