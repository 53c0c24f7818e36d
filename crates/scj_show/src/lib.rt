//! The canonical source of a file of a program.
#![tactic(auto)]

pub mod laws;
mod nodes;
pub mod parts;
pub mod rows;
pub mod shows;
mod symbols;

pub use shows::show;
