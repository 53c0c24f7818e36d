//! Each number of a run has 32 bits, but for the start and the period of a handler, which no name can mean.
#![tactic(auto)]

pub mod laws;
