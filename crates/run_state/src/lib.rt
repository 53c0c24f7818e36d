//! The state of a run, and the steps of which all others are made.
#![tactic(auto)]

pub mod calls;
pub mod effects;
pub mod ends;
pub mod jobs;
mod leaving;
pub mod memory;
pub mod openings;
pub mod reported;
pub mod states;
pub mod stores;
mod tops;

pub use states::{Acting, Job, NewArea, NewArray, NewObject, RunState, Turn};
