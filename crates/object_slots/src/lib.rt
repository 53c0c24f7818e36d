//! The slots with which a new object begins.
#![tactic(auto)]

pub mod slots;

pub use slots::new_slots;
