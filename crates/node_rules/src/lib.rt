//! The rules on classes and members that ask single nodes, and the limits on variables.
#![tactic(auto)]

mod framework_methods;
mod limits;
mod misplaced;
pub mod nodes;
mod types;
