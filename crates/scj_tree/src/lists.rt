//! Lists inside a node.

ghost use Rattle.std.specs.Prelude.{◌≡◌};

use scj_base::NodeId;
use std::marker::Model;

/// The children of a node that stand in a list, in the order of the source.
#[derive(Debug, Drop)]
pub struct NodeList(pub Vec<NodeId>);

impl Model for NodeList {
    ghost use Rattle.std.specs.Prelude.{List, ℕ};

    ghost Value = { List ℕ };

    ghost view = { λ a. a.0.items };
}

impl NodeList {
    /// The children in order.
    pub fn items(&self) -> &[NodeId]
        ensures { result.now ≡ self.now }
    {
        self.0.as_slice()
    }
}

/// The bytes between the quotes of a text.
#[derive(Debug, Drop)]
pub struct TextBytes(pub Vec<u8>);

impl Model for TextBytes {
    ghost use Rattle.std.specs.Prelude.{List, ℕ};

    ghost Value = { List ℕ };

    ghost view = { λ a. a.0.items };
}

impl TextBytes {
    /// The bytes in order.
    pub fn items(&self) -> &[u8]
        ensures { result.now ≡ self.now }
    {
        self.0.as_slice()
    }
}
