//! Operations: what a job does in one unit.

use scj_base::{NodeId, Ref};

/// An operation of a body. Each but `Leave` has the node whose operation it is, and its place is that node's.
#[derive(Clone, Copy, Debug, PartialEq, Eq)]
pub enum Op {
    /// The value of a literal.
    Push(NodeId),
    /// The object whose method runs.
    This(NodeId),
    /// The value of a local.
    Load(NodeId),
    /// The value of an instance field.
    Get(NodeId),
    /// The value of a static field.
    GetStatic(NodeId),
    /// The length of an array.
    Length(NodeId),
    /// An element of an array.
    Elem(NodeId),
    /// An operator on one operand.
    Unary(NodeId),
    /// An operator on two operands.
    Bin(NodeId),
    /// `&&`, whose left operand is there.
    And(NodeId),
    /// `||`, whose left operand is there.
    Or(NodeId),
    /// A new object.
    Alloc(NodeId),
    /// The call of the new object's constructor.
    Construct(NodeId),
    /// A new array.
    AllocArray(NodeId),
    /// The call of a method on an object.
    Call(NodeId),
    /// The call of a static method.
    CallStatic(NodeId),
    /// A cast.
    Cast(NodeId),
    /// `enterPrivateMemory`.
    Enter(NodeId),
    /// `executeInAreaOf`.
    ExecuteIn(NodeId),
    /// `allocInSame`.
    Same(NodeId),
    /// `setCeiling`.
    SetCeiling(NodeId),
    /// `print`.
    Print(NodeId),
    /// `read` of the device.
    Read(NodeId),
    /// `register`.
    Register(NodeId),
    /// `release`.
    Release(NodeId),
    /// `requestTermination`.
    Terminate(NodeId),
    /// The start value of a local that is declared without one.
    Zero(NodeId),
    /// The assignment to a local.
    Store(NodeId),
    /// The assignment to an instance field.
    Put(NodeId),
    /// The assignment to a static field.
    PutStatic(NodeId),
    /// The assignment to an element.
    PutElem(NodeId),
    /// The choice of an `if`, whose condition is there.
    If(NodeId),
    /// The choice of a `while` or a `for`, whose condition is there.
    Loop(NodeId),
    /// `return` with a value.
    LeaveWith(NodeId),
    /// The end of a body, or `return` without a value.
    Leave,
    /// The value of an expression that is a statement is let go.
    Drop(NodeId),
    /// The literal of a field of the object that is constructed.
    Init(NodeId),
    /// The call of the superclass's constructor.
    Super(NodeId),
    /// The parameters of a handler or a sequencer.
    Params(NodeId),
}

/// What the mission sequencer does by itself, each in one unit besides those of the body that it calls.
#[derive(Clone, Copy, Debug, PartialEq, Eq)]
pub enum SeqOp {
    /// Opens immortal memory.
    OpenImmortal,
    /// Makes the safelet.
    AllocSafelet,
    /// Calls the safelet's constructor.
    ConstructSafelet(Ref),
    /// Calls the safelet's `initializeApplication`.
    InitializeApplication(Ref),
    /// Calls the safelet's `getSequencer`.
    GetSequencer(Ref),
    /// Calls the sequencer's `getNextMission`.
    GetNextMission(Ref),
    /// Opens the mission's memory.
    OpenMission(Ref),
    /// Calls the mission's `initialize`.
    Initialize(Ref),
    /// Calls the mission's `cleanUp`.
    CleanUp(Ref),
    /// Leaves the processor to the releases.
    Execute,
    /// Nothing more.
    Finished,
}
