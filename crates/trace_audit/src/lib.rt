//! The audit of a trace without its program: whether each line is one that a run by the plan can tell there, as far as
//! the lines before it and the plan say.
#![tactic(auto)]

pub mod answers;
mod audits;
pub mod choices;
mod fire_keys;
mod forms;
mod handlers;
mod keys;
pub mod laws;
pub mod lines;
mod lookups;
mod parts;
mod planned;
mod reading;
pub mod releases;
mod replays;
mod restanding;
mod tables;

pub use answers::Audit;
pub use audits::audit;
