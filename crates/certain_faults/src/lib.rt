//! The faults that are certain before a run: each place of an accepted program at which constants alone make an
//! operation fault whenever it is done.
#![tactic(auto)]

mod calls;
mod facts;
mod faults;
mod forms;
mod found;
mod known;
pub mod laws;
mod nodes;
mod numbers;
mod pass;

pub use found::CertainFault;
pub use known::{Known, Left};
pub use pass::certain_faults;
