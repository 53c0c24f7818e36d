//! How many bytes each body of a program puts at most into the memory in which it runs, which handler classes may be given
//! a bound, and how large a store is needed.
#![tactic(auto)]

mod answers;
mod bounds;
mod chosen;
mod class_answers;
mod code;
mod edges;
mod needs;
mod points;
mod program_tables;
mod rooms;
mod rows;
mod shown;
mod sites;
mod storage;
mod store;
mod sums;

pub use answers::{BoundAnswer, BoundRow, BoundRows, Bounds, NoBound};
pub use bounds::find_bounds;
