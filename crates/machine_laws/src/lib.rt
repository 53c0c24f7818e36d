//! Laws of the parser's machine: that it gives exactly the trees of the grammar, and stops at the exact place.
#![tactic(auto)]

pub mod closing_laws;
pub mod laws;
