//! What is told of a node before it is judged.

ghost use Rattle.std.specs.Prelude.{◌≡◌, None};
ghost use Rattle.scj_tree.specs.Recursion.{lookup};

use crate::facts::ProgramFacts;
use scj_base::NodeId;
use scj_rules::{Scope, Ty};

/// A node with the facts of its program, and the types and scopes of nodes as far as they are told.
#[derive(Clone, Copy)]
pub struct At<'a> {
    pub facts: &'a ProgramFacts<'a>,
    /// The types of the nodes: of those before it, or of all.
    pub types: &'a [Option<Ty>],
    /// The scopes of the nodes before it, where they are asked.
    pub scopes: &'a [Option<Scope>],
    pub id: NodeId,
}

impl<'a> At<'a> {
    /// The type of a node, if it has one.
    pub fn type_of(&self, node: NodeId) -> Option<Ty>
        ensures { result ≡ lookup None self.now.types.now node }
    {
        *self.types.get(node.number())?
    }

    /// The scope of a node, if it has one.
    pub fn scope_of(&self, node: NodeId) -> Option<Scope>
        ensures { result ≡ lookup None self.now.scopes.now node }
    {
        *self.scopes.get(node.number())?
    }
}
