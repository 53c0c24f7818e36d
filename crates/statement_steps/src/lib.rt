//! Steps of the parser over statements and bodies.
#![tactic(auto)]

pub mod blocks;
mod enclosing_statements;
pub mod endings;
pub mod parameters;
