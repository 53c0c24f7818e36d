//! Steps of the parser over expressions.
#![tactic(auto)]

pub mod arguments;
pub mod closing;
mod levels;
pub mod operands;
