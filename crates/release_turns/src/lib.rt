//! What a unit of a run does to the releases of handlers.
#![tactic(auto)]

pub mod laws;
