//! What keeps programs safe over the reference machine: the invariant of areas, objects, static fields and frames; that
//! under it no operation is stuck; and what an operation of a job makes of the job and of all others.
#![tactic(auto)]

pub mod jobs;
pub mod operations;
