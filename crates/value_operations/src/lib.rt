//! The operations on values, names, operators, assignments and statements: each does to a frame what the definition of
//! the operation says, and tells the effect.
#![tactic(auto, unfolding(job_frames::specs::EffectsSeen::effect_seen))]

mod arrays;
mod assignments;
mod branches;
mod leaves;
mod names;
mod node_queries;
mod operators;

pub use arrays::{elem, length, put_elem};
pub use assignments::{init, put, put_static, store, zero};
pub use branches::{and, choose, iterate, or};
pub use leaves::{drop, leave, leave_with};
pub use names::{get, get_static, load, push, this};
pub use operators::{bin, cast, unary};
