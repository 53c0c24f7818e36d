//! Flow: what the operations of a program take and give, in the words of the rules.
#![tactic(auto)]

pub mod bodies;
