//! How deep the bodies of a file nest.

ghost use Rattle.std.specs.Prelude.{ℕ, ◌≡◌, ◌+◌, ◌<◌, ◌≤◌, ◌^◌, drop, length, IfOk};
ghost use Rattle.scj_tree.specs.Heights.{highest, weight as weight_of, too_deep as position_too_deep};
ghost use Rattle.scj_tree.specs.Shape.{children, optional};
ghost use Rattle.scj_parser.specs.HeightRowsSupport.{row, body_height_by, super_height_by, ChildrenWithin};

use scj_base::{Memory, NodeId, Position};
use scj_tree::{Node, Parts, parts_of};
use std::alloc::Global;

/// The greatest height that a body may have.
const HIGHEST: u32 = 64;

/// The heights of nodes in a row, from the node `first` on.
#[derive(Drop)]
struct Heights {
    first: usize,
    rows: Vec<u32>,
}

impl Heights {
    /// The height of a node.
    fn of(&self, id: NodeId) -> u32
        ensures { result ≡ row self.now.first self.now.rows.items id }
    {
        let index = id.number().saturating_sub(self.first);
        match self.rows.get(index) {
            Some(height) => *height,
            None => 0,
        }
    }

    /// The height of a node that may be missing.
    #[tactic(auto, unfolding(scj_tree::specs::Heights::highest))]
    fn of_optional(&self, id: Option<NodeId>) -> u32
        ensures { result ≡ highest (row self.now.first self.now.rows.items) (optional id) }
    {
        match id {
            Some(id) => self.of(id),
            None => 0,
        }
    }

    /// The greatest height of a list of nodes.
    #[tactic(auto, unfolding(scj_tree::specs::Heights::highest))]
    fn of_list(&self, list: &[NodeId]) -> u32
        ensures { result ≡ highest (row self.now.first self.now.rows.items) list.now }
    {
        let mut highest = 0;
        let mut rest = list;
        while let [id, others @ ..] = rest {
            highest = self.of(*id).max(highest);
            rest = others;
        }
        highest
    }
}

/// What a node adds to the height of its children.
#[tactic(auto, unfolding(scj_tree::specs::Heights::weight))]
fn weight(node: &Node) -> u32
    ensures { result ≡ weight_of node.now }
{
    match node {
        Node::Block { .. }
        | Node::Empty { .. }
        | Node::Local { .. }
        | Node::LocalWithValue { .. }
        | Node::Assign { .. }
        | Node::ExpressionStatement { .. }
        | Node::If { .. }
        | Node::While { .. }
        | Node::For { .. }
        | Node::Return { .. }
        | Node::Binary { .. }
        | Node::Unary { .. }
        | Node::Cast { .. }
        | Node::Parenthesized { .. }
        | Node::SimpleName { .. }
        | Node::FieldAccess { .. }
        | Node::Call { .. }
        | Node::Element { .. }
        | Node::New { .. }
        | Node::NewArray { .. }
        | Node::Number { .. }
        | Node::True { .. }
        | Node::False { .. }
        | Node::Null { .. }
        | Node::This { .. } => 1,
        _ => 0,
    }
}

/// The greatest height of the children of a node.
#[tactic(auto, using(crate::proofs::HeightLemmas::highest_append), unfolding(scj_tree::specs::Heights::highest))]
fn highest_child(heights: &Heights, node: &Node) -> u32
    ensures { result ≡ highest (row heights.now.first heights.now.rows.items) (children node.now) }
{
    let parts = parts_of(node);
    match &parts {
        Parts::Nothing => 0,
        Parts::One(child) => heights.of(*child),
        Parts::Two(first, second) => heights.of(*first).max(heights.of(*second)),
        Parts::Four(first, second, third, fourth) => {
            let last = heights
                .of_optional(*third)
                .max(heights.of_optional(*fourth));
            heights
                .of_optional(*first)
                .max(heights.of_optional(*second).max(last))
        }
        Parts::Listed(first, second, list) => {
            let last = heights.of_optional(*second).max(heights.of_list(list));
            heights.of_optional(*first).max(last)
        }
    }
}

/// The height of a body; 0 for a node that has none.
#[tactic(auto, unfolding(crate::specs::HeightRowsSupport::body_height_by))]
fn body_height(heights: &Heights, node: &Node) -> u32
    requires { (c : ℕ) → row heights.now.first heights.now.rows.items c + 1 < 2 ^ 32 }
    ensures { result ≡ body_height_by (row heights.now.first heights.now.rows.items) node.now }
{
    match node {
        Node::Method {
            body: Some(body),
            ..
        } => heights.of(*body),
        Node::Constructor {
            super_call,
            body,
            ..
        } => heights.of(*body).max(super_height(heights, *super_call)),
        _ => 0,
    }
}

/// The height of the call of a superclass's constructor directly under a block.
#[tactic(auto, unfolding(crate::specs::HeightRowsSupport::super_height_by))]
fn super_height(heights: &Heights, super_call: Option<NodeId>) -> u32
    requires { (c : ℕ) → row heights.now.first heights.now.rows.items c + 1 < 2 ^ 32 }
    ensures { result ≡ super_height_by (row heights.now.first heights.now.rows.items) super_call }
{
    match super_call {
        Some(id) => heights.of(id) + 1,
        None => 0,
    }
}

/// The name of the first method or constructor from the node `first` on whose body is higher than 64.
pub fn too_deep(alloc: Global, nodes: &[Node], first: usize) -> Result<Option<Position>, Memory>
    requires behind { first ≤ length nodes.now }
    requires few { length nodes.now < 2 ^ 32 }
    requires children { ChildrenWithin first first (drop first nodes.now) }
    ensures { IfOk result (λ position. position ≡ position_too_deep first nodes.now) }
{
    let mut heights = Heights {
        first,
        rows: Vec::new(alloc),
    };
    for next in first..nodes.len() {
        let node = &nodes[next];
        if body_height(&heights, node) > HIGHEST {
            return Ok(Some(node.position()));
        }
        let height = weight(node) + highest_child(&heights, node);
        heights.rows.push(height)?;
    }
    Ok(None)
}
