//! What a run needs of memory areas, as definitions over the states of the reference machine, and the data that they
//! share with the code.
#![tactic(auto)]

pub mod refusals;

pub use refusals::Refusal;
