//! The steps of the parser as one, and its run over the tokens of a file.
#![tactic(auto)]

pub mod file_reads;
pub mod runs;
pub mod steps;
