//! The members in scope at one class after another: what stands above a declaration, without a walk for each.
#![tactic(auto)]

pub mod levels;
pub mod looks;
mod openings;
pub mod order;
pub mod scopes;
pub mod table;
mod ways;

pub use order::tour;
pub use table::SymbolTable;
