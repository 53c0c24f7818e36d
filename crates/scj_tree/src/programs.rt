//! Programs: the trees of the sources of a call.

ghost use Rattle.std.specs.Prelude.{◌≡◌, ◌<◌, ◌≤◌, [], ◌∷◌, ◌++◌, length, take, IfOk, OnOk, OnErr, slice_get, Some, option_copied, option_map, map};
ghost use Rattle.scj_tree.specs.Kinds.{kind_of};
ghost use Rattle.scj_tree.specs.Shape.{position_of};

use crate::arenas::Arena;
use crate::kinds::NodeKind;
use crate::nodes::Node;
use scj_base::{Memory, NodeId, Position};
use std::alloc::Global;
use std::marker::Model;

/// The trees of the sources of a call: nodes in one list, each behind its children, and for each file the list of
/// its classes. A node is the child of one node at most, or a class of one file.
#[derive(Drop)]
pub struct Program {
    alloc: Global,
    nodes: Arena,
    files: Vec<Vec<NodeId>>,
}

impl Model for Program {
    ghost use Rattle.std.specs.Prelude.{List, ℕ, map};
    ghost use Rattle.scj_tree.specs.Forest.{Forest, IsForest};

    ghost Value = { Forest };

    ghost view = { λ a. record { nodes = a.nodes; files = map (λ f. f.items) a.files.items } };

    ghost invariant = { λ a. IsForest (record { nodes = a.nodes; files = map (λ f. f.items) a.files.items }) };
}

impl Program {
    ghost use Rattle.scj_tree.specs.Forest.{IsForest, HasFreshChildren, AreFreshClasses, with_node, with_file, AllBelow, joined, forest_of};

    /// No nodes and no files.
    pub fn new(alloc: Global) -> Program
        ensures nodes { result.nodes ≡ [] }
        ensures files { result.files ≡ [] }
    {
        Program {
            alloc,
            nodes: Arena::new(alloc),
            files: Vec::new(alloc),
        }
    }

    /// No nodes and no files, and room for so many nodes.
    ///
    /// # Errors
    ///
    /// `Memory`, where there is no such room.
    pub fn with_capacity(alloc: Global, count: usize) -> Result<Program, Memory>
        ensures nodes { IfOk result (λ program. program.nodes ≡ []) }
        ensures files { IfOk result (λ program. program.files ≡ []) }
    {
        let nodes = Arena::with_capacity(alloc, count)?;
        Ok(Program {
            alloc,
            nodes,
            files: Vec::new(alloc),
        })
    }

    /// The number of nodes.
    pub fn len(&self) -> usize
        ensures value { result ≡ length self.now.nodes }
        ensures whole { IsForest self.now }
    {
        self.nodes.len()
    }

    /// The number of files.
    pub fn file_count(&self) -> usize
        ensures value { result ≡ length self.now.files }
        ensures whole { IsForest self.now }
    {
        self.files.len()
    }

    /// Puts a node last, and tells its number.
    pub fn add(&mut self, node: Node) -> Result<NodeId, Memory>
        requires { HasFreshChildren self.old node }
        ensures number { IfOk result (λ id. id ≡ length self.old.nodes) }
        ensures ok { OnOk result (self.new ≡ with_node self.old node) }
        ensures err { OnErr result (self.new ≡ self.old) }
    {
        let index = self.nodes.len();
        if index >= u32::MAX as usize {
            return Err(Memory);
        }
        self.nodes.push(node)?;
        Ok(NodeId::at(index as u32))
    }

    /// The node of a number, if there is one.
    pub fn get(&self, id: NodeId) -> Option<&Node>
        ensures { option_copied result ≡ slice_get self.now.nodes id }
    {
        self.nodes.get(id.number())
    }

    /// The node of a number.
    pub fn node(&self, id: NodeId) -> &Node
        requires { id < length self.now.nodes }
        ensures { slice_get self.now.nodes id ≡ Some result.now }
    {
        self.nodes.at(id.number())
    }

    /// The kind of the node of a number, if there is one.
    pub fn kind(&self, id: NodeId) -> Option<NodeKind>
        ensures { result ≡ option_map kind_of (slice_get self.now.nodes id) }
    {
        self.nodes.kind(id.number())
    }

    /// Where reports name the node of a number.
    pub fn position(&self, id: NodeId) -> Position
        requires { id < length self.now.nodes }
        ensures { option_map position_of (slice_get self.now.nodes id) ≡ Some result }
    {
        self.node(id).position()
    }

    /// Ends a file with these classes.
    pub fn end_file(&mut self, classes: Vec<NodeId>) -> Result<(), Memory>
        requires few { length self.old.files < 16 }
        requires fresh { AreFreshClasses self.old classes.items }
        ensures ok { OnOk result (self.new ≡ with_file self.old classes.items) }
        ensures err { OnErr result (self.new ≡ self.old) }
    {
        self.files.push(classes)?;
        Ok(())
    }

    /// The nodes and the files' classes, taken apart.
    pub fn into_parts(self) -> (Arena, Vec<Vec<NodeId>>)
        ensures nodes { result.0 ≡ self.nodes }
        ensures files { map (λ f. f.items) result.1.items ≡ self.files }
        ensures whole { IsForest self }
    {
        let Program {
            alloc: _,
            nodes,
            files,
        } = self;
        (nodes, files)
    }

    /// A program of these nodes and files.
    pub fn from_parts(alloc: Global, nodes: Arena, files: Vec<Vec<NodeId>>) -> Program
        requires { IsForest (forest_of nodes (map (λ f. f.items) files.items)) }
        ensures { result ≡ forest_of nodes (map (λ f. f.items) files.items) }
    {
        Program {
            alloc,
            nodes,
            files,
        }
    }

    /// The classes of a file, in the order of the source.
    pub fn classes(&self, file: u8) -> &[NodeId]
        requires { file < length self.now.files }
        ensures { slice_get self.now.files file ≡ Some result.now }
    {
        self.files[file as usize].as_slice()
    }
}
