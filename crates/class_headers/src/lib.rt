//! The headers of the classes of a program, as they are written, and what is asked of them before they count: cycles,
//! kinds, and names that are forbidden.
#![tactic(auto)]

pub mod classes;
pub mod filling;
pub mod keys;
mod kinds;
pub mod named_numbers;
mod names;
mod parts;
pub mod supers;
pub mod ways;

pub use filling::{Header, Headers, headers_in};
pub use keys::NameKey;
pub use named_numbers::NamedNumbers;
