//! A table of what a run needs of memory areas: a row for each scope. Its memory is taken when it is made.
#![tactic(auto)]

pub mod looks;
pub mod rows;
pub mod tables;

pub use rows::NeedRow;
pub use tables::AreaTable;
