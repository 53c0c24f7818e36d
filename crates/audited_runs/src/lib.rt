//! Each number of a run has 32 bits, and the trace of each run is answered with yes by the audit.
#![tactic(auto)]

pub mod laws;
