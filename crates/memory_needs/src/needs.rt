//! The bytes that each node needs.

ghost use Rattle.std.specs.Prelude.{◌≡◌, ◌+◌, IfOk, length, max, min, slice_set};
ghost use Rattle.scj_tree.specs.Heights.{highest};
ghost use Rattle.scj_tree.specs.Parts.{ids_of};
ghost use Rattle.scj_tree.specs.Recursion.{lookup};
ghost use Rattle.scj_tree.specs.Shape.{optional};
ghost use Rattle.scj_rules.specs.Definitions.{read};
ghost use Rattle.scj_rules.specs.Bodies.{number_literal};
ghost use Rattle.scj_rules.specs.Layout.{size_with_slots};
ghost use Rattle.scj_model.specs.Code.{code_of};
ghost use Rattle.memory_needs.specs.Need.{array_bytes, node_need, object_bytes, own_bytes, sum_of, too_much};
ghost use Rattle.memory_needs.specs.Targets.{targets_here};
ghost use Rattle.memory_needs.specs.Edges.{count, runs_here, written_nodes};
ghost use Rattle.memory_needs.specs.Sites.{IsTable};
ghost use Rattle.memory_needs.specs.Solved.{AreCapped, need_by, zero_rows, solved, reported_by};

use crate::code::Code;
use crate::edges::run_parts_of;
use crate::sums::{sum, sum_of};
use scj_base::{Memory, NodeId};
use scj_rules::Binding;
use scj_tree::{Node, Parts, Program, row_or};
use std::alloc::Global;

/// The number that a node writes.
#[tactic(auto, unfolding(scj_rules::specs::Bodies::number_literal))]
pub fn number_literal(program: &Program, id: NodeId) -> Option<u32>
    ensures { result ≡ read program.now.nodes number_literal id }
{
    match program.get(id)? {
        Node::Number {
            value,
            is_negative,
            ..
        } => {
            if *is_negative {
                return None;
            }
            Some(*value)
        }
        _ => None,
    }
}

/// The bytes of an object with so many slots.
#[tactic(auto, unfolding(scj_rules::specs::Layout::size_with_slots))]
fn size_with_slots(count: u32) -> u64
    ensures { result ≡ size_with_slots count }
{
    8 * (2 + count as u64)
}

/// The bytes of a new object.
#[tactic(auto, using(scj_model::proofs::Slots::slots_counted), unfolding(crate::specs::Need::object_bytes, scj_model::specs::Code::code_of))]
fn object_bytes(code: &Code<'_>, binding: &Binding) -> u64
    ensures { result ≡ object_bytes (code_of code.now).program binding.now }
{
    match binding {
        Binding::Class(class) => size_with_slots(code.layout().slots(*class)),
        _ => 0,
    }
}

/// The bytes of a new array.
#[tactic(auto, using(op_list::proofs::CodeLemmas::nodes_are), unfolding(crate::specs::Need::array_bytes))]
fn array_bytes(code: &Code<'_>, count: NodeId) -> u64
    ensures { result ≡ array_bytes (code_of code.now).program.nodes count }
{
    match number_literal(code.program(), count) {
        Some(count) => size_with_slots(count),
        None => size_with_slots(0),
    }
}

/// The bytes that a node itself makes.
#[tactic(auto, unfolding(crate::specs::Need::own_bytes))]
fn own_bytes(code: &Code<'_>, id: NodeId, node: &Node) -> u64
    ensures { result ≡ own_bytes (code_of code.now) id node.now }
{
    match node {
        Node::New { .. } => object_bytes(code, &code.binding(id)),
        Node::NewArray { length, .. } => array_bytes(code, *length),
        _ => 0,
    }
}

/// The greatest that rows tell of these nodes.
#[tactic(auto, unfolding(scj_tree::specs::Heights::highest))]
pub fn highest(rows: &[u64], nodes: &[NodeId]) -> u64
    ensures { result ≡ highest (lookup 0 rows.now) nodes.now }
{
    let mut most = 0;
    let mut rest = nodes;
    while let [node, others @ ..] = rest {
        most = most.max(row_or(rows, 0, *node));
        rest = others;
    }
    most
}

/// What rows tell of a node, if there is one.
#[tactic(auto, unfolding(crate::specs::Need::sum_of))]
fn optional_need(rows: &[u64], node: Option<NodeId>) -> u64
    ensures { min too_much result ≡ min too_much (sum_of (lookup 0 rows.now) (optional node)) }
{
    match node {
        Some(node) => row_or(rows, 0, node),
        None => 0,
    }
}

/// The sum of what rows tell of the parts of a node.
#[tactic(auto, using(crate::proofs::NeedLemmas::sum_both), unfolding(crate::specs::Need::sum_of))]
fn sum_of_parts(rows: &[u64], parts: &Parts<'_>) -> u64
    ensures { result ≡ min too_much (sum_of (lookup 0 rows.now) (ids_of parts.now)) }
{
    match parts {
        Parts::Nothing => 0,
        Parts::One(child) => sum_of(rows, &[*child]),
        Parts::Two(first, second) => sum_of(rows, &[*first, *second]),
        Parts::Four(first, second, third, fourth) => sum(
            sum(optional_need(rows, *first), optional_need(rows, *second)),
            sum(optional_need(rows, *third), optional_need(rows, *fourth)),
        ),
        Parts::Listed(first, second, list) => sum(
            sum(optional_need(rows, *first), optional_need(rows, *second)),
            sum_of(rows, list),
        ),
    }
}

/// What an `if` needs.
#[tactic(auto, unfolding(crate::specs::Need::sum_of))]
fn if_need(rows: &[u64], condition: NodeId, then_part: NodeId, else_part: Option<NodeId>) -> u64
    ensures { result ≡ min too_much (lookup 0 rows.now condition
        + max (lookup 0 rows.now then_part) (sum_of (lookup 0 rows.now) (optional else_part))) }
{
    let branches = row_or(rows, 0, then_part).max(optional_need(rows, else_part));
    sum(row_or(rows, 0, condition), branches)
}

/// What a node needs, by the rows of all nodes.
#[tactic(auto, using(crate::proofs::NeedLemmas::highest_written), unfolding(crate::specs::Need::node_need))]
fn node_need(code: &Code<'_>, rows: &[u64], here: &[NodeId], id: NodeId, node: &Node) -> u64
    requires { here.now ≡ written_nodes (targets_here (code_of code.now) id node.now) }
    ensures { result ≡ min too_much (node_need (code_of code.now) (reported_by rows.now) (lookup 0 rows.now) id node.now) }
{
    match node {
        Node::If {
            condition,
            then_part,
            else_part,
            ..
        } => if_need(rows, *condition, *then_part, *else_part),
        _ => sum(
            sum_of_parts(rows, &run_parts_of(node)),
            sum(own_bytes(code, id, node), highest(rows, here)),
        ),
    }
}

/// What the node of a number needs, by the rows of all nodes.
#[tactic(auto, unfolding(crate::specs::Need::next_need, crate::specs::Edges::runs_here))]
fn next_need(code: &Code<'_>, rows: &[u64], here: &[NodeId], id: NodeId) -> u64
    requires { here.now ≡ runs_here (code_of code.now) id }
    ensures { result ≡ min too_much (need_by (code_of code.now) rows.now id) }
{
    match code.node(id) {
        Some(node) => node_need(code, rows, here, id, node),
        None => 0,
    }
}

/// Sets the row of a vertex, if it is a node.
#[tactic(auto, using(crate::proofs::Capped::set_beyond))]
fn set_need(rows: &mut Vec<u64>, code: &Code<'_>, here: &[Vec<NodeId>], vertex: u32)
    requires whole { length rows.old.items ≡ count (code_of code.now) }
    requires here { IsTable (runs_here (code_of code.now)) (count (code_of code.now)) here.now }
    ensures { rows.new.items ≡ slice_set rows.old.items vertex
        (min too_much (need_by (code_of code.now) rows.old.items vertex)) }
{
    let index = vertex as usize;
    if index < here.len() {
        rows[index] = next_need(
            code,
            rows.as_slice(),
            here[index].as_slice(),
            NodeId::at(vertex),
        );
    }
}

/// The needs of all nodes, as far as they stay below the ceiling, found one after the other.
pub fn needs(
    alloc: Global,
    code: &Code<'_>,
    here: &[Vec<NodeId>],
    order: &[u32],
) -> Result<Vec<u64>, Memory>
    requires { IsTable (runs_here (code_of code.now)) (count (code_of code.now)) here.now }
    ensures whole { IfOk result (λ rows. length rows.items ≡ count (code_of code.now)) }
    ensures capped { IfOk result (λ rows. AreCapped rows.items
        (solved (code_of code.now) order.now (zero_rows (code_of code.now)))) }
{
    let mut rows = vec![in alloc; 0u64; code.count()]?;
    for index in 0..order.len() {
        set_need(&mut rows, code, here, order[index]);
    }
    Ok(rows)
}
