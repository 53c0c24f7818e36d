//! The words and the places of the nodes that are read from texts.
#![tactic(auto)]

pub mod laws;
