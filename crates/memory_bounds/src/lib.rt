//! How many bytes each handler of a program puts at most into the private memory of a release, and that a release with
//! enough never fills it.
#![tactic(auto)]

mod call;
pub mod laws;

pub use call::bounds;
