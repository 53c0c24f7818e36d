//! The machine that runs accepted programs: what a run puts on a sink, and how it ends.
#![tactic(auto)]

pub mod area_runs;
mod area_texts;
mod ends;
mod laws;
pub mod machines;
mod printers;
pub mod runs;
mod statics;
pub mod steps;
mod under_way;
mod watched;

pub use area_runs::run_areas;
pub use machines::Machine;
pub use runs::{RunEnd, RunError, run};
pub use steps::Progress;
pub use unit_steps::Setting;
