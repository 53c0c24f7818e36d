//! What is known of a part of a source while it is read.

use scj_base::{NodeId, Position};

/// What an expression of names, calls and brackets is: it decides what may stand behind it.
#[derive(Clone, Copy, Debug)]
pub enum PostKind {
    /// A name, a field or an element: an assignment's target.
    Variable,
    /// A call or a `new` of a class: a statement by itself.
    Invocation,
    /// A `new` of an array: no `[` stands directly behind it.
    NewArray,
    /// Any other.
    Value,
}

/// The annotations and modifiers before a declaration that have been read so far.
#[derive(Clone, Copy, Debug)]
pub struct FlagSet {
    /// The first of them.
    pub position: Option<Position>,
    /// The `@DefineScope`.
    pub define_scope: Option<NodeId>,
    /// The value of `@Scope`.
    pub scope: Option<NodeId>,
    /// The value of `@RunsIn`.
    pub runs_in: Option<NodeId>,
    /// Whether `public` stands there.
    pub is_public: bool,
    /// Whether `protected` stands there.
    pub is_protected: bool,
    /// Whether `private` stands there.
    pub is_private: bool,
    /// Whether `static` stands there.
    pub is_static: bool,
    /// Whether `final` stands there.
    pub is_final: bool,
    /// Whether `abstract` stands there.
    pub is_abstract: bool,
    /// Whether `synchronized` stands there.
    pub is_synchronized: bool,
}
