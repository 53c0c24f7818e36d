//! The reference machine: what a run of a program is, as definitions, and the data that they share with the code.
#![tactic(auto)]

pub mod events;
pub mod handlers;
pub mod laws;
pub mod operations;
pub mod phases;
pub mod plans;

pub use events::Event;
pub use handlers::{HandlerKind, HandlerRow};
pub use operations::{Op, SeqOp};
pub use phases::Phase;
pub use plans::{Fire, FireFrom, ReadingRow};
