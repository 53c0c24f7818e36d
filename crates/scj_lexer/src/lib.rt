//! The lexer: the tokens of a source text.
#![tactic(auto)]

mod classes;
pub mod laws;
mod pieces;
mod tables;
pub mod texts;
mod tries;

pub use texts::{LexError, lex};
