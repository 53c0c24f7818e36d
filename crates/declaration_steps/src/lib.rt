//! Steps of the parser over files, the heads of classes, members and annotations.
#![tactic(auto)]

pub mod annotations;
pub mod files;
pub mod heads;
pub mod members;
pub mod scope_names;
pub mod scope_values;
