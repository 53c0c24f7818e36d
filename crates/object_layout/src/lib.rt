//! What a machine asks of a program while it runs: slots, bodies, sizes, static fields.
#![tactic(auto)]

mod arrays;
mod bodies;
mod body_tables;
mod class_numbers;
mod classes;
mod field_tables;
pub mod fields;
pub mod layout;
mod object_tables;
mod objects;
mod parts;
mod safelets;
mod sizes;
mod slots;
mod tables;

pub use fields::StaticField;
pub use layout::Layout;
pub use parts::kind_of_type;
