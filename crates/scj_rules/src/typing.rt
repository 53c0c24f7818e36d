//! The types of expressions, what a name stands for, and static scopes.

use crate::views::Declared;
use scj_base::{ClassId, FieldId, MethodId, NodeId, ScopeId};

/// The type of an expression (JLS, chapter 4).
#[derive(Clone, Copy, Debug)]
pub enum Ty {
    /// `int`.
    Int,
    /// `boolean`.
    Bool,
    /// What a call of a method without a result has.
    Void,
    /// The type of `null`.
    NullTy,
    /// The type of a text.
    Label,
    /// A class or interface type.
    Class(ClassId),
    /// `int[]`.
    IntArray,
    /// `boolean[]`.
    BoolArray,
    /// An array of a class or interface type.
    ClassArray(ClassId),
}

/// The method that a call stands for.
#[derive(Clone, Copy, Debug)]
pub struct Target {
    /// The method.
    pub id: MethodId,
    /// The static type of the receiver; of the second argument of a method of `ManagedMemory`, unless that is the type
    /// of `null`; and otherwise the class that declares the method.
    pub on: ClassId,
    /// Whether the call leaves a value.
    pub gives: bool,
}

/// What a node stands for.
#[derive(Clone, Copy, Debug)]
pub enum Binding {
    /// Nothing but itself.
    Plain,
    /// The local of this number: parameters first, then in the order of declaration.
    Local(u8),
    /// An instance field.
    Field(FieldId),
    /// A static field.
    Static(FieldId),
    /// The length of an array.
    Length,
    /// A class; of a new array the array's.
    Class(ClassId),
    /// An instance method of a user class.
    Method(Target),
    /// A static method of a user class.
    StaticMethod(Target),
    /// A method of the framework.
    Builtin(Target),
}

/// The static scope of a reference: where the object lies that it names.
#[derive(Clone, Copy, Debug)]
pub enum Scope {
    /// Anywhere, as `null` does.
    Any,
    /// Where the object lies whose method runs.
    This,
    /// In the scope that is current when the method is called.
    Caller,
    /// In a named scope, or in `IMMORTAL`.
    In(ScopeId),
    /// Somewhere: `UNKNOWN` is written.
    Unknown,
    /// Where the object lies of which it was read, and of that nothing is known.
    Lost,
}

/// A field that a class has, its own or one of a class above (JLS 8.3).
#[derive(Clone, Copy, Debug)]
pub struct FoundField {
    /// The class that declares it.
    pub on: ClassId,
    /// The field.
    pub field: Declared,
}

/// What a name stands for where it stands alone (JLS 6.5).
#[derive(Clone, Copy, Debug)]
pub enum Meaning {
    /// The local or parameter that this node declares.
    Variable(NodeId),
    /// A field.
    Field(FoundField),
    /// A class, directly before a dot.
    Class(ClassId),
    /// Nothing.
    Nothing,
}

/// What an access or a call is asked of.
#[derive(Clone, Copy, Debug)]
pub enum Receiver {
    /// A class that is named.
    Class(ClassId),
    /// A value of this type.
    Value(Ty),
    /// The object of this class in which a call without an object stands.
    Own(ClassId),
}

/// A subject of a guard: a local, a parameter or `this`, each by itself.
#[derive(Clone, Copy, Debug)]
pub enum Subject {
    /// The object whose method runs.
    This,
    /// The local or parameter that this node declares.
    Variable(NodeId),
}

/// The subjects of `ManagedMemory.allocInSame(first, second)`, where that is the condition of an `if`.
#[derive(Clone, Copy, Debug)]
pub struct Guard {
    /// The first.
    pub first: Subject,
    /// The second.
    pub second: Subject,
}
