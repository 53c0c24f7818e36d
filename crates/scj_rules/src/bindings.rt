//! What the nodes of a program stand for, as a list.

ghost use Rattle.std.specs.Prelude.{◌≡◌, [], ◌∷◌, ◌++◌, IfOk, OnOk, OnErr, slice_get, option_copied};

use crate::typing::Binding;
use scj_base::{Memory, NodeId};
use std::alloc::Global;
use std::marker::Model;

/// What each node of a program stands for. A contract sees the list.
#[derive(Drop)]
pub struct Bindings {
    rows: Vec<Binding>,
}

impl Model for Bindings {
    ghost use Rattle.std.specs.Prelude.{List};
    ghost use Rattle.scj_rules.specs.declared.typing.Binding.{Binding as Row};

    ghost Value = { List Row };

    ghost view = { λ a. a.rows.items };
}

impl Bindings {
    /// Nothing is told of any node.
    pub fn new(alloc: Global) -> Bindings
        ensures { result ≡ [] }
    {
        Bindings {
            rows: Vec::new(alloc),
        }
    }

    /// The same, with room for so many nodes.
    pub fn with_capacity(alloc: Global, count: usize) -> Result<Bindings, Memory>
        ensures { IfOk result (λ bindings. bindings ≡ []) }
    {
        let rows = Vec::with_capacity(alloc, count)?;
        Ok(Bindings { rows })
    }

    /// Tells of one more node what it stands for.
    pub fn add(&mut self, b: Binding) -> Result<(), Memory>
        ensures ok { OnOk result (self.new ≡ self.old ++ b ∷ []) }
        ensures err { OnErr result (self.new ≡ self.old) }
    {
        self.rows.push(b)?;
        Ok(())
    }

    /// What a node stands for, if that is told.
    pub fn get(&self, node: NodeId) -> Option<&Binding>
        ensures { option_copied result ≡ slice_get self.now node }
    {
        self.rows.get(node.number())
    }

    /// What is told, node by node.
    pub fn items(&self) -> &[Binding]
        ensures { result.now ≡ self.now }
    {
        self.rows.as_slice()
    }
}
