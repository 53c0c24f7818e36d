//! Directed graphs: of each vertex, by its number, a list of the vertices to which it has an edge.
#![tactic(auto)]

mod order;
mod reach;

pub use order::{Order, in_order};
pub use reach::{reached, successors_of};
