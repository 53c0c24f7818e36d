//! The operators of the language on values, in code.
#![tactic(auto)]

mod equality;
pub mod framework_numbers;
mod integers;
mod literals;
mod one_value;
mod starts;
mod two_values;

pub use literals::literal;
pub use one_value::unary;
pub use starts::default_of;
pub use two_values::{binary, divides_by_zero};
