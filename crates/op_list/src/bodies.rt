//! Bodies in the list.

ghost use Rattle.std.specs.Prelude.{◌≡◌, ◌<◌, IfOk, length};
ghost use Rattle.scj_model.specs.Code.{code_of};
ghost use Rattle.op_list.specs.Listed.{is_body, names_body, IsNodeRow};
ghost use Rattle.op_list.specs.Rows.{IsLonger};

use crate::code::Code;
use crate::laying::lay_node;
use crate::rows::Row;
use scj_base::{Memory, NodeId};
use scj_tree::Node;

/// What calls of a body ask.
#[derive(Clone, Copy, Debug)]
pub struct BodyRow {
    /// The place of its first operation.
    pub start: u32,
    /// How many parameters and locals it has.
    pub locals: u32,
    /// Whether its frames hold the monitor of their `this`.
    pub is_synchronized: bool,
}

/// Whether a node names a body: a method, a constructor, or a class whose constructor isn't written.
#[tactic(auto, unfolding(crate::specs::Listed::is_body))]
fn is_body(node: &Node) -> bool
    ensures { result ≡ is_body node.now }
{
    match node {
        Node::Method { .. } => true,
        Node::Constructor { .. } => true,
        Node::Class { .. } => true,
        _ => false,
    }
}

/// The same of the node of a number.
#[tactic(auto, unfolding(crate::specs::Listed::names_body))]
fn names_body(code: &Code<'_>, id: NodeId) -> bool
    ensures { result ≡ names_body code.now.nodes id }
{
    match code.node(id) {
        None => false,
        Some(node) => is_body(node),
    }
}

/// Lays out the body that a node names, if it names one.
pub fn lay_body(code: &Code<'_>, rows: &mut Vec<Row>, id: NodeId) -> Result<Option<BodyRow>, Memory>
    requires { 0 < length rows.old.items }
    ensures longer { IfOk result (λ _. IsLonger (code_of code.now) rows.old.items rows.new.items) }
    ensures body { IfOk result (λ listed. IsNodeRow (code_of code.now) rows.new.items id listed) }
{
    if !names_body(code, id) {
        return Ok(None);
    }
    let start = lay_node(code, rows, id, 0)?;
    Ok(Some(BodyRow {
        start,
        locals: code.layout().locals(id),
        is_synchronized: code.layout().is_synchronized(id),
    }))
}
