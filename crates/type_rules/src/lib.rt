//! The rules on types, node by node.
#![tactic(auto)]

pub mod arguments;
pub mod calls;
pub mod expressions;
pub mod forms;
pub mod members;
pub mod names;
pub mod results;
pub mod statements;
