//! The checks on the tree of scopes.
#![tactic(auto)]

mod builds;
mod names;
mod rules;
pub mod scopes;

pub use builds::build;
pub use names::{definition_in, names_of};
