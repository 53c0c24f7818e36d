//! Methods of a program and of the framework as rows that are copied, and what is declared of them.
#![tactic(auto)]

pub mod facts;
mod framework;
pub mod refs;

pub use facts::{
    body, builtin, declared, is_callable_row, is_overridable, is_static, name, node, parameter,
    parameter_count, parameter_type, result_type,
};
pub use framework::{framework_method, nothing};
pub use refs::{MethodRef, MethodSource};
