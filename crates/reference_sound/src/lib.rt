//! What the invariant means for references: stores pass, and no reference that can be used dangles.
#![tactic(auto)]

pub mod references;
pub mod stores;
