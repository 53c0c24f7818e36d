//! The pass that finds the types of the nodes of a program, and what breaks the rules on types.
#![tactic(auto)]

mod expressions;
mod kinds;
mod nodes;
mod rows;
mod types;
mod values;

pub use types::check_types;
