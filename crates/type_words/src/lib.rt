//! Words of the rules on types: types, receivers, bodies that return.
#![tactic(auto)]

mod bodies;
mod types;

pub use bodies::{is_long, is_size_body, is_void, returning};
pub use types::{
    are_same, array_of, class_of_receiver, class_of_type, element_type, is_array, is_array_value,
    is_length, is_no_reference, is_reference, is_value, names_class, unary_type,
};
