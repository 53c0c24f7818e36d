//! The claim of response times isn't empty: a run stays within declared rows, and a release in it ends in the last unit
//! of its bound.
#![tactic(auto)]

pub mod laws;
