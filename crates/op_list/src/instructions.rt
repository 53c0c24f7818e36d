//! Instructions: operations with what they ask of the program resolved.

use scj_base::{ClassId, FieldId, MethodId, NodeId, Value};
use scj_rules::{Body, SlotKind};

/// A literal.
#[derive(Clone, Copy, Debug)]
pub struct Literal {
    pub value: Value,
}

/// The literal of an instance field.
#[derive(Clone, Copy, Debug)]
pub struct FieldLiteral {
    pub value: Value,
    pub field: FieldId,
}

/// A local, and what it holds.
#[derive(Clone, Copy, Debug)]
pub struct LocalVariable {
    pub local: u8,
    pub kind: SlotKind,
}

/// A class of arrays, and what their elements hold.
#[derive(Clone, Copy, Debug)]
pub struct ArrayClass {
    pub class: ClassId,
    pub kind: SlotKind,
}

/// A body that is called, and with how many arguments.
#[derive(Clone, Copy, Debug)]
pub struct Callee {
    pub body: Body,
    pub count: usize,
}

/// A method that is called on an object, and with how many arguments.
#[derive(Clone, Copy, Debug)]
pub struct Selector {
    pub method: MethodId,
    pub count: usize,
}

/// An operation with what it asks of the program. There is one of each kind of operations, and one for those that ask
/// for what isn't there.
#[derive(Clone, Copy, Debug)]
pub enum Instruction {
    /// What is asked isn't there. This never happens in a program that breaks no rule.
    Stuck,
    /// The value of a literal.
    Push(Literal),
    /// The object whose method runs.
    This,
    /// The value of a local.
    Load(u8),
    /// The value of an instance field.
    Get(FieldId),
    /// The value of the static field at a place.
    GetStatic(u32),
    /// The length of an array.
    Length,
    /// An element of an array.
    Elem,
    /// An operator on one operand.
    Unary(u8),
    /// An operator on two operands.
    Bin(u8),
    /// `&&`, whose left operand is there.
    And,
    /// `||`, whose left operand is there.
    Or,
    /// A new object of a class.
    Alloc(ClassId),
    /// The call of the new object's constructor.
    Construct(Callee),
    /// A new array of a class.
    AllocArray(ArrayClass),
    /// The call of a method on an object.
    Call(Selector),
    /// The call of a static method.
    CallStatic(Callee),
    /// A cast to a class.
    Cast(ClassId),
    /// `enterPrivateMemory`.
    Enter,
    /// `executeInAreaOf`.
    ExecuteIn,
    /// `allocInSame`.
    Same,
    /// `setCeiling`.
    SetCeiling,
    /// `print`, with the node of the text.
    Print(NodeId),
    /// `read` of the device.
    Read,
    /// `register`.
    Register,
    /// `release`.
    Release,
    /// `requestTermination`.
    Terminate,
    /// The start value of a local.
    Zero(LocalVariable),
    /// The assignment to a local.
    Store(u8),
    /// The assignment to an instance field.
    Put(FieldId),
    /// The assignment to the static field at a place.
    PutStatic(u32),
    /// The assignment to an element.
    PutElem,
    /// The choice of an `if`, whose condition is there.
    If,
    /// The choice of a loop, whose condition is there.
    Loop,
    /// `return` with a value.
    LeaveWith,
    /// The end of a body, or `return` without a value.
    Leave,
    /// The value of an expression that is a statement is let go.
    Drop,
    /// The literal of a field of the object that is constructed.
    Init(FieldLiteral),
    /// The call of the superclass's constructor.
    Super(Callee),
    /// The parameters for a class of handlers or sequencers.
    Params(ClassId),
}
