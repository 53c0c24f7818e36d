//! The definitions of scopes, as a class writes them.

use crate::typing::Scope;
use crate::views::WrittenType;
use scj_base::{ClassId, Name, NodeId, Position, ScopeId};

/// The name of a scope, where an annotation writes it.
#[derive(Clone, Copy, Debug)]
pub struct Written {
    /// The name.
    pub name: Name,
    /// Where it is written.
    pub position: Position,
}

/// An annotation `@DefineScope(name=.., parent=..)` before a class.
#[derive(Clone, Copy, Debug)]
pub struct Definition {
    /// The node of the class.
    pub class: NodeId,
    /// The scope that it defines.
    pub scope: Written,
    /// The parent that it names.
    pub parent: Written,
}

/// Where the instances of a class lie.
#[derive(Clone, Copy, Debug)]
pub enum ClassScope {
    /// Anywhere.
    Unannotated,
    /// In this scope.
    Annotated(ScopeId),
    /// Nowhere, since the declaration breaks a rule on annotations.
    Missing,
}

/// What the name in `@Scope` or `@RunsIn` denotes.
#[derive(Clone, Copy, Debug)]
pub enum Resolution {
    /// This scope, in normal form.
    Resolved(Scope),
    /// A scope that is missing, since the declaration that gives it breaks a rule on annotations.
    Missing,
    /// Nothing.
    Unresolved,
}

/// A local, a parameter, a field or a result, as far as its scope is asked for.
#[derive(Clone, Copy, Debug)]
pub struct ScopedDeclaration {
    /// The class where it stands.
    pub class: ClassId,
    /// The scope that is current there.
    pub current: Option<Scope>,
    /// The scope that it has where none is written.
    pub default: Option<Scope>,
    /// Whether it is a field.
    pub is_field: bool,
    /// Whether it is a local or a parameter.
    pub is_variable: bool,
    /// Whether it is static, or stands in a static member.
    pub is_static: bool,
    /// Its type.
    pub declared_type: WrittenType,
    /// The scope that is written.
    pub scope: Option<Written>,
}
