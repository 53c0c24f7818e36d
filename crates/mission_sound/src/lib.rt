//! The mission sequencer keeps the invariant of a whole state: its own operations, what follows them, and arrivals.
#![tactic(auto)]

pub mod releases;
pub mod sequencer;
