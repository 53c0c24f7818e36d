//! The tables of the scopes of a program: of its classes, of its methods and fields, and of its variables.

use scj_base::{Name, ScopeId};
use scj_rules::{ClassScope, Scope};
use std::collections::BTreeMap;

/// The scopes of a program by their names.
#[derive(Drop)]
pub struct ScopeNames {
    pub scopes: BTreeMap<Name, ScopeId>,
}

/// What is said of a class.
#[derive(Clone, Copy)]
pub struct ScopeRow {
    /// The scope that its chain defines.
    pub chained: Option<ScopeId>,
    /// The parent of the scope that it is the first to define.
    pub parent: Option<ScopeId>,
    /// Where its instances lie.
    pub scope: ClassScope,
}

/// What is said of the classes of a program, each at its number.
#[derive(Drop)]
pub struct ScopeTree {
    /// Whether the instances of each lie in `IMMORTAL` although it doesn't write so.
    pub implied: Vec<bool>,
    /// What else is said of each.
    pub rows: Vec<ScopeRow>,
}

/// Where the methods of a program run, and its fields lie, by their nodes.
#[derive(Drop)]
pub struct Runs {
    pub rows: BTreeMap<usize, Option<Scope>>,
}

/// Where variables lie, by the nodes that declare them.
#[derive(Drop)]
pub struct Variables {
    pub rows: BTreeMap<usize, Scope>,
}
