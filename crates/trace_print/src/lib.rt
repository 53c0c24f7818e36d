//! The lines of a trace: each event of a run is put as one line of text, in room that was taken before the run.
#![tactic(auto)]

mod labels;
pub mod lines;
mod pieces;
mod words;

pub use lines::{Line, put_event};
