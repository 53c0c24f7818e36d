//! The releases of a run and the choice of the one that acts, each as the definitions of a run have it, at the cost of
//! the live ones alone.
#![tactic(auto)]

mod choice;
mod counts;
pub mod history;
mod indices;
pub mod rows;

pub use history::Releases;
pub use rows::{Release, ReleaseStatus};
