//! What happens to missions: handlers are registered, releases and the end of a mission are asked for, the sequencer
//! goes on from one operation to the next, and releases start.
#![tactic(auto)]

mod applied;
mod areas;
mod bodies;
mod life;
mod looks;
pub mod operations;
pub mod phases;
pub mod registry;
pub mod releases;
pub mod requests;
pub mod starts;
pub mod transitions;

pub use life::is_exec;
pub use operations::sequencer_op;
pub use phases::phase_after;
pub use registry::aperiodic_of;
pub use releases::{release_taken, takes_releases};
pub use requests::{asks_registration, asks_release, asks_termination};
pub use starts::start_op;
