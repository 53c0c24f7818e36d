//! The static scopes of expressions, and the checks on uses.
#![tactic(auto)]

mod calls;
mod checks;
mod guards;
mod nodes;
mod parents;
mod scopes;
mod stores;
mod subjects;

pub use checks::check_uses;
