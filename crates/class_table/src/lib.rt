//! The table of the classes of a program, and what breaks the rules on classes and members and the limits.
#![tactic(auto)]

pub mod checks;
mod classes;
mod inherited;

pub use checks::build;
pub use class_rows::ClassTable;
