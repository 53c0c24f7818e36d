//! The operations of all bodies, listed once: where each goes on, and what it asks of the program.
#![tactic(auto)]

pub mod bodies;
mod call_instructions;
mod calls;
pub mod choices;
pub mod code;
mod constructors;
mod facts;
pub mod instructions;
pub mod laws;
mod laying;
mod nodes;
pub mod op_lists;
mod parts;
mod readings;
mod resolving;
pub mod rows;
mod single_rows;
mod statements;
mod value_instructions;

pub use bodies::BodyRow;
pub use code::Code;
pub use instructions::Instruction;
pub use op_lists::OpList;
pub use rows::{Row, target};
