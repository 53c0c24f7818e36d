//! Steps of the parser over types, and over the flags of what is declared.
#![tactic(auto)]

pub mod declarations;
mod elements;
pub mod flags;
pub mod names;
pub mod types;
