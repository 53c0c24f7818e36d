//! What the nodes of a program declare, read out of its tree.
#![tactic(auto)]

mod classes;
mod constructors;
mod declarations;
mod kinds;
mod methods;
mod parameters;
mod parts;
mod words;

pub use classes::{
    class_extends, class_members, class_modifiers, class_name, class_position, interface_nodes,
    named_super,
};
pub use constructors::{constructor_parameters, is_constructor, super_call_arguments};
pub use declarations::{field_at, variable_at};
pub use kinds::{is_field, is_method, is_variable};
pub use methods::{callable_name, method_body, method_declared, method_name, method_parameters};
pub use parameters::{parameter, parameter_count, parameter_nodes, parameter_type};
pub use parts::{
    field_type, field_written, is_abstract_method, is_static_at, is_static_field, is_static_method,
    result_type, variable_type, variable_written,
};
pub use words::{modifiers_at, position_at, scope_written, type_at};
