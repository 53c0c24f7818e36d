//! The words of a call of the program, read as one command.
//!
//! The command is MODE, `--plan FILE`, `--size N` and each SOURCE. `clap` reads the words, and the rules
//! of the mode judge what it finds.
#![tactic(auto)]

mod arguments;
mod given;
pub mod jobs;
mod modes;
mod sizes;
pub mod words;

pub use jobs::{Job, WordsError};
pub use words::read_words;
