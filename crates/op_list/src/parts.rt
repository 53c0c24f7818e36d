//! Parts: that of which a node's operations are made.

ghost use Rattle.std.specs.Prelude.{◌≡◌, ◌<◌, [], ◌∷◌, ◌++◌, length};

use scj_base::{ClassId, NodeId};
use scj_model::Op;
use std::marker::Model;

/// A part stands for some of the operations of a node.
#[derive(Clone, Copy, Debug)]
pub enum Part {
    /// All operations of a node.
    Visit(NodeId),
    /// One operation.
    Emit(Op),
    /// The statements or arguments of a node, from a place on.
    Items { index: usize, list: NodeId },
    /// The literals of the fields that a class declares, from a place on.
    Literals { index: usize, class: ClassId },
}

/// A constructor has the most: two of its super part, the literals, the body and its end.
pub const MOST_PARTS: usize = 5;

/// The parts of a node in the order of their operations. A contract sees them as a list.
#[derive(Drop)]
pub struct Parts {
    cells: [Part; MOST_PARTS],
    count: usize,
}

impl Model for Parts {
    ghost use Rattle.std.specs.Prelude.{◌≡◌, ◌≤◌, List, take, length};
    ghost use Rattle.op_list.specs.declared.parts.Part.{Part as Row};

    ghost Value = { List Row };

    ghost view = { λ a. take a.count a.cells };

    ghost invariant = { λ a. (a.count ≤ length a.cells) × (length a.cells ≡ 5) };
}

impl Parts {
    /// No parts.
    pub fn none() -> Parts
        ensures { result ≡ [] }
    {
        Parts {
            cells: [Part::Emit(Op::Leave); MOST_PARTS],
            count: 0,
        }
    }

    /// Puts a part last.
    pub fn push(&mut self, part: Part)
        requires { length self.old < MOST_PARTS }
        ensures { self.new ≡ self.old ++ part ∷ [] }
    {
        self.cells[self.count] = part;
        self.count += 1;
    }

    /// One part.
    pub fn one(first: Part) -> Parts
        ensures { result ≡ first ∷ [] }
    {
        let mut parts = Parts::none();
        parts.push(first);
        parts
    }

    /// Two parts.
    pub fn two(first: Part, second: Part) -> Parts
        ensures { result ≡ first ∷ second ∷ [] }
    {
        let mut parts = Parts::one(first);
        parts.push(second);
        parts
    }

    /// Three parts.
    pub fn three(first: Part, second: Part, third: Part) -> Parts
        ensures { result ≡ first ∷ second ∷ third ∷ [] }
    {
        let mut parts = Parts::two(first, second);
        parts.push(third);
        parts
    }

    /// Four parts.
    pub fn four(first: Part, second: Part, third: Part, fourth: Part) -> Parts
        ensures { result ≡ first ∷ second ∷ third ∷ fourth ∷ [] }
    {
        let mut parts = Parts::three(first, second, third);
        parts.push(fourth);
        parts
    }

    /// The parts in order.
    pub fn items(&self) -> &[Part]
        ensures { result.now ≡ self.now }
    {
        &self.cells[..self.count]
    }
}
