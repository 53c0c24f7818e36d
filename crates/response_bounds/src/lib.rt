//! Response times under fixed priorities with ceilings: what is declared of handlers, the response that follows from
//! it, and that it holds in each schedule that follows priorities and stays within what is declared.
#![tactic(auto)]

pub mod demands;
pub mod laws;
pub mod responses;
pub mod rows;
pub mod sweep;

pub use responses::{Response, are_bounds};
pub use rows::Declared;
pub use sweep::respond;
