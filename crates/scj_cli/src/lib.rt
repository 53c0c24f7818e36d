//! The top call of the checker: words in, text on two sinks and a status out.
#![tactic(auto)]

mod areas;
mod audits;
mod bound_lists;
mod bounds;
mod calls;
mod checks;
mod confirmations;
mod fault_lists;
mod faults;
mod gens;
mod kept_traces;
mod keys;
pub mod laws;
mod loads;
mod migrations;
mod plan_refusals;
mod refusals;
mod reported;
mod reports;
mod responses;
mod runnables;
mod runs;
mod shows;
mod summaries;

pub use calls::scj;
