//! The rules on classes and members, and the limits.
#![tactic(auto)]

mod headers;
mod members;
mod openings;
mod overrides;
pub mod parts;
mod repeats;
pub mod rules;
pub mod safelets;
pub mod types;
