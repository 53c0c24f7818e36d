//! The nodes of a program while a file is read.

ghost use Rattle.std.specs.Prelude.{◌≡◌, ◌≤◌, ◌<◌, ◌^◌, IfOk, OnOk, length, []};
ghost use Rattle.scj_tree.specs.Nodes.{put};

use scj_base::{Memory, NameTable, NodeId, SharedName};
use scj_tree::{Arena, Node, NodeList, TextBytes};
use std::alloc::Global;
use std::marker::Model;

/// The nodes of the files before, and behind them those of the file that is read.
#[derive(Drop)]
pub struct Nodes {
    alloc: Global,
    names: NameTable,
    items: Arena,
    kept: usize,
}

impl Model for Nodes {
    ghost use Rattle.std.specs.Prelude.{List, take, length, ◌≤◌, ◌<◌, ◌^◌};
    ghost use Rattle.parser_nodes.specs.Growing.{Growing, growing};

    ghost Value = { Growing };

    ghost view = { λ a. growing (take a.kept a.items) a.items };

    ghost invariant = { λ a. (a.kept ≤ length a.items) × (length a.items < 2 ^ 32) };
}

impl Nodes {
    /// No nodes behind those of the files before.
    pub fn over(alloc: Global, items: Arena) -> Nodes
        requires { length items < 2 ^ 32 }
        ensures all { result.all ≡ items }
        ensures kept { result.kept ≡ items }
    {
        let kept = items.len();
        Nodes {
            alloc,
            names: NameTable::new(alloc),
            items,
            kept,
        }
    }

    /// A list without a child.
    pub fn empty_list(&self) -> NodeList
        ensures { result ≡ [] }
    {
        NodeList(Vec::new(self.alloc))
    }

    /// The bytes of a text.
    pub fn text(&self, bytes: &[u8]) -> Result<TextBytes, Memory>
        ensures { IfOk result (λ text. text ≡ bytes.now) }
    {
        Ok(TextBytes(bytes.to_vec(self.alloc)?))
    }

    /// The name of these bytes, shared with those that were asked lately.
    pub fn shared(&mut self, bytes: &[u8]) -> Result<SharedName, Memory>
        requires { length bytes.now ≤ 64 }
        ensures name { IfOk result (λ shared. shared ≡ bytes.now) }
        ensures same { self.new ≡ self.old }
    {
        self.names.share(bytes)
    }

    /// Puts a node last, and tells its number.
    pub fn put(&mut self, node: Node) -> Result<NodeId, Memory>
        ensures number { IfOk result (λ id. id ≡ length self.old.all) }
        ensures all { OnOk result (self.new.all ≡ put self.old.all node) }
        ensures kept { self.new.kept ≡ self.old.kept }
    {
        let index = self.items.len();
        if index >= u32::MAX as usize {
            return Err(Memory);
        }
        self.items.push(node)?;
        Ok(NodeId::at(index as u32))
    }

    /// The nodes in order.
    pub fn items(&self) -> &[Node]
        ensures all { result.now ≡ self.now.all }
        ensures few { length self.now.all < 2 ^ 32 }
    {
        self.items.as_slice()
    }

    /// The number of the nodes of the files before.
    pub fn kept_len(&self) -> usize
        ensures { result ≡ length self.now.kept }
    {
        self.kept
    }

    /// All nodes.
    pub fn into_all(self) -> Arena
        ensures { result ≡ self.all }
    {
        let Nodes {
            alloc: _,
            names: _,
            items,
            kept: _,
        } = self;
        items
    }

    /// The nodes of the files before.
    pub fn into_kept(self) -> Arena
        ensures { result ≡ self.kept }
    {
        let Nodes {
            alloc: _,
            names: _,
            mut items,
            kept,
        } = self;
        items.truncate(kept);
        items
    }
}
