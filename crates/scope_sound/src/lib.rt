//! Accepted programs are safe: whatever the plan, and whichever release acts in each unit.
#![tactic(auto)]

pub mod laws;
pub mod operations;
