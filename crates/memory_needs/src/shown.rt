//! What single nodes show.

ghost use Rattle.std.specs.Prelude.{◌≡◌, IfOk};
ghost use Rattle.scj_tree.specs.Heights.{highest};
ghost use Rattle.scj_tree.specs.Recursion.{listed, lookup};
ghost use Rattle.scj_model.specs.Code.{binding, code_of, position_of_node};
ghost use Rattle.memory_needs.specs.Edges.{count, runs_entered};
ghost use Rattle.memory_needs.specs.Shown.{call_shown, node_shown, number_shown, shown_at, shown_if_needed, size_shown};
ghost use Rattle.memory_needs.specs.Sites.{IsTable};

use crate::answers::NoBound;
use crate::code::Code;
use crate::needs::{highest, number_literal};
use scj_base::ids::{MANAGED_MEMORY_ENTER_PRIVATE_MEMORY, MANAGED_MEMORY_EXECUTE_IN_AREA_OF};
use scj_base::{Memory, NodeId, Position};
use scj_rules::Binding;
use scj_tree::{Node, row_or};
use std::alloc::Global;

/// A cause, and the place that shows it.
#[derive(Clone, Copy, Debug, PartialEq, Eq)]
pub struct Shown {
    /// The cause.
    pub cause: NoBound,
    /// The place.
    pub at: Position,
}

/// The place of a node.
#[tactic(auto, using(op_list::proofs::CodeLemmas::nodes_are))]
pub fn position_of(code: &Code<'_>, id: NodeId) -> Position
    ensures { result ≡ position_of_node (code_of code.now) id }
{
    node_views::position_at(code.program(), id)
}

/// What a number that is asked shows: that it is none.
#[tactic(auto, using(op_list::proofs::CodeLemmas::nodes_are), unfolding(crate::specs::Shown::number_shown))]
fn number_shown(code: &Code<'_>, number: NodeId) -> Option<Shown>
    ensures { result ≡ number_shown (code_of code.now) number }
{
    match number_literal(code.program(), number) {
        Some(_) => None,
        None => Some(Shown {
            cause: NoBound::NotLiteral,
            at: position_of(code, number),
        }),
    }
}

/// What a size shows: that it is no number, or below what is put there.
#[tactic(auto, using(op_list::proofs::CodeLemmas::nodes_are), unfolding(crate::specs::Shown::size_shown))]
fn size_shown(code: &Code<'_>, id: NodeId, size: NodeId, need: u64) -> Option<Shown>
    ensures { result ≡ size_shown (code_of code.now) id size need }
{
    match number_literal(code.program(), size) {
        Some(bytes) => {
            if (bytes as u64) < need {
                return Some(Shown {
                    cause: NoBound::TooSmall,
                    at: position_of(code, id),
                });
            }
            None
        }
        None => Some(Shown {
            cause: NoBound::NotLiteral,
            at: position_of(code, size),
        }),
    }
}

/// A cause that stands at a node, where something is needed.
#[tactic(auto, unfolding(crate::specs::Shown::shown_if_needed))]
fn shown_if_needed(code: &Code<'_>, id: NodeId, cause: NoBound, need: u64) -> Option<Shown>
    ensures { result ≡ shown_if_needed (code_of code.now) id cause need }
{
    if need > 0 {
        return Some(Shown {
            cause,
            at: position_of(code, id),
        });
    }
    None
}

/// What a call shows, by the greatest that what it enters needs.
#[tactic(auto, unfolding(crate::specs::Shown::call_shown, crate::specs::Shown::entered_shown))]
fn call_shown(code: &Code<'_>, id: NodeId, arguments: &[NodeId], need: u64) -> Option<Shown>
    ensures { result ≡ call_shown (code_of code.now) id (binding (code_of code.now) id) arguments.now need }
{
    let Binding::Builtin(target) = code.binding(id) else {
        return None;
    };
    if target.id == MANAGED_MEMORY_EXECUTE_IN_AREA_OF {
        return shown_if_needed(code, id, NoBound::OuterArea, need);
    }
    if target.id == MANAGED_MEMORY_ENTER_PRIVATE_MEMORY {
        return match arguments {
            [size, ..] => size_shown(code, id, *size, need),
            _ => None,
        };
    }
    None
}

/// What a node shows.
#[tactic(auto, unfolding(crate::specs::Shown::node_shown))]
fn node_shown(
    code: &Code<'_>,
    rows: &[u64],
    entered: &[NodeId],
    id: NodeId,
    node: &Node,
) -> Option<Shown>
    ensures { result ≡ node_shown (code_of code.now) (lookup 0 rows.now) (highest (lookup 0 rows.now) entered.now) id
        node.now }
{
    match node {
        Node::NewArray { length, .. } => number_shown(code, *length),
        Node::While { .. } => shown_if_needed(code, id, NoBound::NewInLoop, row_or(rows, 0, id)),
        Node::For { .. } => shown_if_needed(code, id, NoBound::NewInLoop, row_or(rows, 0, id)),
        Node::Call { arguments, .. } => call_shown(
            code,
            id,
            arguments.items(),
            highest(rows, entered),
        ),
        _ => None,
    }
}

/// What the node of a number shows.
#[tactic(auto, unfolding(crate::specs::Shown::shown_at))]
fn shown_at(code: &Code<'_>, rows: &[u64], entered: &[NodeId], id: NodeId) -> Option<Shown>
    requires { entered.now ≡ runs_entered (code_of code.now) id }
    ensures { result ≡ shown_at (code_of code.now) rows.now id }
{
    match code.node(id) {
        Some(node) => node_shown(code, rows, entered, id, node),
        None => None,
    }
}

/// What each node shows.
#[tactic(auto, using(scj_tree::proofs::RecursionLemmas::listed_more), unfolding(scj_tree::specs::Recursion::listed))]
pub fn all_shown(
    alloc: Global,
    code: &Code<'_>,
    rows: &[u64],
    entered: &[Vec<NodeId>],
) -> Result<Vec<Option<Shown>>, Memory>
    requires { IsTable (runs_entered (code_of code.now)) (count (code_of code.now)) entered.now }
    ensures { IfOk result (λ shown. shown.items ≡ listed (shown_at (code_of code.now) rows.now)
        (count (code_of code.now))) }
{
    let mut shown = Vec::new(alloc);
    for number in 0..code.count() {
        let id = NodeId::at(number as u32);
        shown.push(shown_at(code, rows, entered[number].as_slice(), id))?;
    }
    Ok(shown)
}
