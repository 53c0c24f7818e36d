//! A program and its plan, generated from a number.
#![tactic(auto)]

pub mod generating;
pub mod sizes;

pub use generating::generate;
pub use sizes::GenError;
