//! Numbers that name a thing of a program.

ghost use Rattle.std.specs.Prelude.{◌≡◌};

use std::marker::Model;

/// The number of a node of a program, in the order in which the nodes were added.
#[derive(Clone, Copy, Debug, PartialEq, Eq, PartialOrd, Ord)]
pub struct NodeId {
    number: u32,
}

impl Model for NodeId {
    ghost use Rattle.std.specs.Prelude.{ℕ};

    ghost Value = { ℕ };

    ghost view = { λ a. a.number };

    ghost inverse = { λ n. record { number = n } };
}

impl NodeId {
    /// The node at a place of the program's list of nodes.
    pub fn at(number: u32) -> NodeId
        ensures { result ≡ number }
    {
        NodeId { number }
    }

    /// The place of the node in the program's list of nodes.
    pub fn number(self) -> usize
        ensures { result ≡ self }
    {
        self.number as usize
    }
}
