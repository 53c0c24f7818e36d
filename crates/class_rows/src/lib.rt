//! The classes of a program, and look-ups among them and their members.
#![tactic(auto)]

mod ancestries;
pub mod chains;
pub mod classes;
mod counted;
pub mod fields;
pub mod inherited;
pub mod lookups;
pub mod members;
pub mod nearest;
pub mod tables;

pub use fields::FieldRef;
pub use inherited::{Inherited, InheritedMethods};
pub use nearest::NearestMembers;
pub use tables::ClassTable;
