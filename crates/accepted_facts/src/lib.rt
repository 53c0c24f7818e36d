//! Facts of accepted programs that a proof on their runs uses: what methods take and give and what calls of them run, and
//! what each kind of expression and statement has. Each law is the contract of a function that does nothing, and is proved
//! by the lemma in proofs/ that says the same.
#![tactic(auto)]

pub mod calls;
pub mod expressions;
pub mod methods;
pub mod statements;
