//! The values of a run.

use crate::ids::Ref;

/// A value of a variable, of a field or of an expression.
#[derive(Clone, Copy, Debug, PartialEq, Eq)]
pub enum Value {
    /// A number.
    Int(i32),
    /// A truth value.
    Bool(bool),
    /// The reference to no object.
    Null,
    /// A reference to an object.
    At(Ref),
}
