//! The parser as a machine that takes one lexeme a step: what it has in hand and what it has put aside.
#![tactic(auto)]

pub mod entries;
pub mod modes;

pub use entries::Entry;
pub use modes::{ElementType, Mode};
