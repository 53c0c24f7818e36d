//! What the nodes of a program declare.

use crate::scopes::Written;
use scj_base::{Name, NodeId, Position};

/// The annotations and modifiers before a declaration (JLS 8.1.1, 8.3.1, 8.4.3; JSR 302: Scope, RunsIn, DefineScope).
#[derive(Clone, Copy, Debug)]
pub struct Modifiers {
    /// Whether `@DefineScope` stands there.
    pub defines_scope: bool,
    /// The value of `@Scope`.
    pub scope: Option<Written>,
    /// The value of `@RunsIn`.
    pub runs_in: Option<Written>,
    /// Whether `static` stands there.
    pub is_static: bool,
    /// Whether `abstract` stands there.
    pub is_abstract: bool,
    /// Whether `synchronized` stands there.
    pub is_synchronized: bool,
}

/// A type as it is written (JLS, chapter 4).
#[derive(Clone, Copy, Debug)]
pub enum WrittenType {
    /// `int`.
    Int,
    /// `boolean`.
    Boolean,
    /// `void`, as a result.
    Void,
    /// `long`, as a result.
    Long,
    /// A text, as a parameter of a framework method alone.
    Text,
    /// `int[]`.
    IntArray,
    /// `boolean[]`.
    BooleanArray,
    /// A class or interface of this name.
    Class(Name),
    /// An array of a class or interface of this name.
    ClassArray(Name),
}

/// A variable or a member that is declared.
#[derive(Clone, Copy, Debug)]
pub struct Declared {
    /// Its node.
    pub node: NodeId,
    /// Where it is named.
    pub position: Position,
    /// Its name.
    pub name: Name,
    /// The annotations and modifiers before it.
    pub modifiers: Modifiers,
    /// Its type, of a method the result's.
    pub declared_type: WrittenType,
}

/// What a variable, a field or an element of an array holds (JLS 4.2, 4.3).
#[derive(Clone, Copy, Debug, PartialEq, Eq)]
pub enum SlotKind {
    /// An `int`.
    Number,
    /// A `boolean`.
    Truth,
    /// A reference, or `null`.
    Reference,
}

/// What a call runs.
#[derive(Clone, Copy, Debug, PartialEq, Eq)]
pub enum Body {
    /// The body of the method or constructor of this node, or the unwritten constructor of the class of this node.
    Written(NodeId),
    /// A body of the framework, which is empty.
    Empty,
}
