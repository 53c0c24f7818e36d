//! What the checker reads from and writes to: shelves that load files by name, and sinks that take bytes.
#![tactic(auto)]

mod counters;
pub mod file_shelves;
pub mod mem_shelves;
pub mod mem_sinks;
pub mod shelves;
pub mod sinks;
pub mod std_sinks;

pub use file_shelves::FileShelf;
pub use mem_shelves::MemShelf;
pub use mem_sinks::MemSink;
pub use shelves::{LoadError, Shelf};
pub use sinks::{Sink, put_all};
pub use std_sinks::StdSink;
