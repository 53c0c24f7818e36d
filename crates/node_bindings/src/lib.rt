//! What the nodes of a program stand for.
#![tactic(auto)]

mod calls;
mod fields;
mod kinds;
mod numbers;
mod programs;

pub use programs::bindings_of;
