//! What is known before a run of the values that nodes leave.

use scj_base::Value;

/// What is known of a value.
#[derive(Clone, Copy, Debug)]
pub enum Known {
    /// Nothing.
    Unknown,
    /// It is this one.
    Exactly(Value),
    /// It is a reference to an object.
    Object,
}

/// What is known of the operands that the operations of a node leave.
#[derive(Clone, Copy, Debug)]
pub enum Left {
    /// Nothing, and nothing more of those that were there before.
    Forgets,
    /// No operand.
    Zero,
    /// One operand.
    One(Known),
    /// Two operands, in their order.
    Two(Known, Known),
    /// Four operands, in their order.
    Four(Known, Known, Known, Known),
}
