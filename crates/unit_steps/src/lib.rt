//! One unit of a run: arrivals, the choice, one operation, and what follows in the sequencer.
#![tactic(auto)]

mod applied;
mod arrivals;
mod dues;
mod frame_ops;
mod positions;
pub mod refusals;
mod turns;
pub mod units;

pub use refusals::Acted;
pub use units::{Setting, begin_unit, end_unit, one_unit};
