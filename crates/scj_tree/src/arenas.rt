//! Nodes in one list, with their kinds beside them.

ghost use Rattle.std.specs.Prelude.{◌≡◌, ◌<◌, [], length, take, OnOk, OnErr, IfOk, slice_get, Some, option_copied, option_map};
ghost use Rattle.scj_tree.specs.Nodes.{put};
ghost use Rattle.scj_tree.specs.Kinds.{kind_of};

use crate::kinds::NodeKind;
use crate::nodes::Node;
use scj_base::Memory;
use std::alloc::Global;
use std::marker::Model;

/// Nodes in the order in which they were put, and beside them their kinds, a byte for each. A contract sees the nodes.
#[derive(Drop)]
pub struct Arena {
    nodes: Vec<Node>,
    kinds: Vec<NodeKind>,
}

impl Model for Arena {
    ghost use Rattle.std.specs.Prelude.{◌≡◌, List, map};
    ghost use Rattle.scj_tree.specs.declared.nodes.Node.{Node as Row};
    ghost use Rattle.scj_tree.specs.Kinds.{kind_of};

    ghost Value = { List Row };

    ghost view = { λ a. a.nodes.items };

    ghost invariant = { λ a. a.kinds.items ≡ map kind_of a.nodes.items };
}

impl Arena {
    /// No nodes.
    pub fn new(alloc: Global) -> Arena
        ensures { result ≡ [] }
    {
        Arena {
            nodes: Vec::new(alloc),
            kinds: Vec::new(alloc),
        }
    }

    /// No nodes, and room for so many.
    pub fn with_capacity(alloc: Global, count: usize) -> Result<Arena, Memory>
        ensures { IfOk result (λ arena. arena ≡ []) }
    {
        let nodes = Vec::with_capacity(alloc, count)?;
        let kinds = Vec::with_capacity(alloc, count)?;
        Ok(Arena { nodes, kinds })
    }

    /// The number of nodes.
    pub fn len(&self) -> usize
        ensures { result ≡ length self.now }
    {
        self.nodes.len()
    }

    /// Puts a node last.
    pub fn push(&mut self, node: Node) -> Result<(), Memory>
        ensures ok { OnOk result (self.new ≡ put self.old node) }
        ensures err { OnErr result (self.new ≡ self.old) }
    {
        let count = self.kinds.len();
        self.kinds.push(node.kind())?;
        if self.nodes.push(node).is_err() {
            self.kinds.truncate(count);
            return Err(Memory);
        }
        Ok(())
    }

    /// Forgets the nodes from a place on.
    pub fn truncate(&mut self, count: usize)
        ensures { self.new ≡ take count self.old }
    {
        self.nodes.truncate(count);
        self.kinds.truncate(count);
    }

    /// The node at a place, if there is one.
    pub fn get(&self, index: usize) -> Option<&Node>
        ensures { option_copied result ≡ slice_get self.now index }
    {
        self.nodes.get(index)
    }

    /// The node at a place.
    pub fn at(&self, index: usize) -> &Node
        requires { index < length self.now }
        ensures { slice_get self.now index ≡ Some result.now }
    {
        &self.nodes[index]
    }

    /// The kind of the node at a place, if there is one.
    pub fn kind(&self, index: usize) -> Option<NodeKind>
        ensures { result ≡ option_map kind_of (slice_get self.now index) }
    {
        match self.kinds.get(index) {
            Some(kind) => Some(*kind),
            None => None,
        }
    }

    /// The nodes in order.
    pub fn as_slice(&self) -> &[Node]
        ensures { result.now ≡ self.now }
    {
        self.nodes.as_slice()
    }
}
