//! The tree of a program: an arena of nodes in which children stand before their parents.
#![tactic(auto)]

pub mod arenas;
pub mod classes;
pub mod kinds;
pub mod lists;
pub mod nodes;
pub mod parsed_parts;
pub mod parts;
pub mod programs;
pub mod rows;

pub use arenas::Arena;
pub use classes::class_ids;
pub use kinds::NodeKind;
pub use lists::{NodeList, TextBytes};
pub use nodes::Node;
pub use parsed_parts::{FlagSet, PostKind};
pub use parts::{Parts, parts_of};
pub use programs::Program;
pub use rows::row_or;
