//! The framework's classes and methods, as tables.
#![tactic(auto)]

pub mod classes;
pub mod kinds;
pub mod methods;
pub mod names;

pub use classes::{FRAMEWORK_CLASS_COUNT, FrameworkClass, framework_classes};
pub use kinds::{ClassKind, GivesKind, ParameterKind, Parameters, RunsInKind};
pub use methods::{FRAMEWORK_METHOD_COUNT, FrameworkMethod, framework_method};
pub use names::method_named;
