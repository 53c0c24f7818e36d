//! What the passes of the checker share of a program: one value, filled phase by phase.
#![tactic(auto)]

pub mod facts;
pub mod meanings;
pub mod reported;
pub mod tables;
mod variables;

pub use facts::ProgramFacts;
pub use meanings::{NameMeaning, NodeMeaning};
pub use reported::At;
pub use tables::{Runs, ScopeNames, ScopeRow, ScopeTree, Variables};
