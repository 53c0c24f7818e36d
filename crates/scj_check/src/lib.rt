//! The sources of a call: their program, and what is told of it.
#![tactic(auto)]

pub mod laws;
pub mod parse_outcomes;
pub mod phases;
pub mod sources;
pub mod verdicts;

pub use parse_outcomes::{ParseOutcome, read};
pub use sources::Sources;
pub use verdicts::{Report, Verdict, check};
