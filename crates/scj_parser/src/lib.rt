//! The parser: the tokens of a file read into the tree of a program.
#![tactic(auto)]

mod heights;
pub mod parse_answers;
pub mod parses;

pub use parse_answers::ParseError;
pub use parses::parse;
