//! The bytes of private memories that each node may have open at once.

ghost use Rattle.std.specs.Prelude.{◌≡◌, ◌&&◌, IfOk, IfSome, OnOk, is_some, length, max, slice_get, slice_set, Some};
ghost use Rattle.std.specs.List.{list_any};
ghost use Rattle.scj_tree.specs.Heights.{highest};
ghost use Rattle.scj_tree.specs.Parts.{ids_of};
ghost use Rattle.scj_tree.specs.Recursion.{lookup};
ghost use Rattle.scj_tree.specs.Shape.{optional};
ghost use Rattle.scj_rules.specs.ClassRules.{numbers_from};
ghost use Rattle.scj_model.specs.Code.{code_of};
ghost use Rattle.scj_model.specs.Memory.{rounded_up};
ghost use Rattle.memory_needs.specs.Edges.{count, runs_entered, runs_here, written_nodes};
ghost use Rattle.memory_needs.specs.Reach.{run_parts};
ghost use Rattle.memory_needs.specs.Room.{entered_with, next_room, own_room, target_room};
ghost use Rattle.memory_needs.specs.Sites.{IsTable, has_body, is_any};
ghost use Rattle.memory_needs.specs.Solved.{room_by, solved_rooms, reported_by, zero_rows};
ghost use Rattle.memory_needs.specs.Stores.{opened_room};
ghost use Rattle.memory_needs.specs.Targets.{memory_targets, targets_entered, targets_here};

use crate::code::{Asked, Code};
use crate::edges::run_parts_of;
use crate::needs::{highest, number_literal};
use scj_base::ids::{MANAGED_MEMORY_ENTER_PRIVATE_MEMORY, MANAGED_MEMORY_EXECUTE_IN_AREA_OF};
use scj_base::{ClassId, Memory, NodeId};
use scj_rules::Binding;
use scj_tree::{Node, Parts, row_or};
use std::alloc::Global;

/// Bytes in whole words.
pub fn rounded_up(bytes: u32) -> u64
    ensures { result ≡ rounded_up bytes }
{
    (bytes as u64).next_multiple_of(8)
}

/// The first argument.
fn first(arguments: &[NodeId]) -> Option<NodeId>
    ensures { result ≡ slice_get arguments.now 0 }
{
    match arguments {
        [argument, ..] => Some(*argument),
        _ => None,
    }
}

/// The size with which a node enters a private memory, as it is written.
#[tactic(auto, using(crate::proofs::RoomLemmas::none_entered, crate::proofs::RoomLemmas::first_entered), unfolding(crate::specs::Room::entered_with))]
fn entered_with(binding: &Binding, node: &Node) -> Option<NodeId>
    ensures { result ≡ entered_with binding.now node.now }
{
    let Binding::Builtin(target) = binding else {
        return None;
    };
    if target.id != MANAGED_MEMORY_ENTER_PRIVATE_MEMORY {
        return None;
    }
    match node {
        Node::Call { arguments, .. } => first(arguments.items()),
        _ => None,
    }
}

/// The bytes of the store that a node's own private memory takes.
#[tactic(auto, using(op_list::proofs::CodeLemmas::nodes_are), unfolding(crate::specs::Room::own_room))]
fn own_room(code: &Code<'_>, id: NodeId, node: &Node) -> u64
    ensures { result ≡ own_room (code_of code.now) id node.now }
{
    match entered_with(&code.binding(id), node) {
        Some(size) => match number_literal(code.program(), size) {
            Some(bytes) => rounded_up(bytes),
            None => 0,
        },
        None => 0,
    }
}

/// Whether a class is a concrete one under another one and has the body that is asked.
#[tactic(auto, unfolding(crate::specs::Sites::has_body))]
fn has_body(code: &Code<'_>, on: ClassId, asked: &Asked, class: ClassId) -> bool
    ensures { result ≡ has_body (code_of code.now).program on asked.now class }
{
    code.is_concrete_under(on, class) && code.asked_body(asked, class).is_some()
}

/// Whether a concrete class under another one has the body that is asked.
#[tactic(auto, using(scj_rules::proofs::NumberLemmas::numbers_next, scj_rules::proofs::NumberLemmas::numbers_end, crate::proofs::SiteLemmas::classes_are))]
fn any_has_body(code: &Code<'_>, on: ClassId, asked: &Asked) -> bool
    ensures { result ≡ list_any (has_body (code_of code.now).program on asked.now)
        (numbers_from 0 (code_of code.now).program.classes) }
{
    for number in 0..code.classes().class_count() {
        if has_body(code, on, asked, ClassId::at(number)) {
            return true;
        }
    }
    false
}

/// Whether a call that enters memory runs something there.
#[tactic(auto, using(crate::proofs::RoomLemmas::any_runs), unfolding(crate::specs::Targets::memory_targets, crate::specs::Targets::entered_targets, crate::specs::Sites::is_any))]
fn runs_in_memory(code: &Code<'_>, binding: &Binding) -> bool
    ensures { result ≡ is_any (memory_targets (code_of code.now).program binding.now) }
{
    match binding {
        Binding::Builtin(target) => {
            if target.id == MANAGED_MEMORY_ENTER_PRIVATE_MEMORY
                || target.id == MANAGED_MEMORY_EXECUTE_IN_AREA_OF
            {
                return any_has_body(code, target.on, &Asked::Run);
            }
            false
        }
        _ => false,
    }
}

/// The bytes that a node's own private memory takes, if something is run there.
#[tactic(auto, unfolding(crate::specs::Stores::opened_room))]
fn opened_room(code: &Code<'_>, id: NodeId, node: &Node) -> u64
    ensures { result ≡ opened_room (code_of code.now) id node.now }
{
    let own = own_room(code, id, node);
    if own == 0 || runs_in_memory(code, &code.binding(id)) {
        return own;
    }
    0
}

/// What rows tell of a node, if there is one.
#[tactic(auto, unfolding(scj_tree::specs::Heights::highest))]
fn optional_row(rows: &[u64], node: Option<NodeId>) -> u64
    ensures { result ≡ highest (lookup 0 rows.now) (optional node) }
{
    match node {
        Some(node) => row_or(rows, 0, node),
        None => 0,
    }
}

/// The greatest that rows tell of the parts of a node.
#[tactic(auto, using(crate::proofs::RowLists::highest_both), unfolding(scj_tree::specs::Heights::highest))]
fn highest_of_parts(rows: &[u64], parts: &Parts<'_>) -> u64
    ensures { result ≡ highest (lookup 0 rows.now) (ids_of parts.now) }
{
    match parts {
        Parts::Nothing => 0,
        Parts::One(child) => highest(rows, &[*child]),
        Parts::Two(first, second) => highest(rows, &[*first, *second]),
        Parts::Four(first, second, third, fourth) => {
            let front = optional_row(rows, *first).max(optional_row(rows, *second));
            front.max(optional_row(rows, *third).max(optional_row(rows, *fourth)))
        }
        Parts::Listed(first, second, list) => {
            let front = optional_row(rows, *first).max(optional_row(rows, *second));
            front.max(highest(rows, list))
        }
    }
}

/// What a node has open at once, by the rows of all nodes. None where that is no number of 64 bits.
#[tactic(auto, using(crate::proofs::RoomLemmas::target_room_is))]
fn node_room(
    code: &Code<'_>,
    rows: &[u64],
    here: &[NodeId],
    entered: &[NodeId],
    id: NodeId,
    node: &Node,
) -> Option<u64>
    requires here { here.now ≡ written_nodes (targets_here (code_of code.now) id node.now) }
    requires entered { entered.now ≡ written_nodes (targets_entered (code_of code.now) id node.now) }
    requires there { slice_get (code_of code.now).program.nodes id ≡ Some node.now }
    ensures { IfSome result (λ n. n
        ≡ max (target_room (code_of code.now) (reported_by rows.now) id node.now)
        (highest (lookup 0 rows.now) (run_parts node.now))) }
{
    let inner = highest(rows, here).max(highest(rows, entered));
    let opened = inner.checked_add(opened_room(code, id, node))?;
    Some(opened.max(highest_of_parts(rows, &run_parts_of(node))))
}

/// What the node of a number has open at once, by the rows of all nodes.
#[tactic(auto, unfolding(crate::specs::Room::next_room, crate::specs::Edges::runs_here, crate::specs::Edges::runs_entered))]
fn next_room(
    code: &Code<'_>,
    rows: &[u64],
    here: &[NodeId],
    entered: &[NodeId],
    id: NodeId,
) -> Option<u64>
    requires here { here.now ≡ runs_here (code_of code.now) id }
    requires entered { entered.now ≡ runs_entered (code_of code.now) id }
    ensures { IfSome result (λ n. n ≡ room_by (code_of code.now) rows.now id) }
{
    match code.node(id) {
        Some(node) => node_room(code, rows, here, entered, id, node),
        None => Some(0),
    }
}

/// Sets the row of a vertex, if it is a node.
#[tactic(auto, using(crate::proofs::Capped::set_beyond))]
fn set_room(
    rows: &mut Vec<u64>,
    code: &Code<'_>,
    here: &[Vec<NodeId>],
    entered: &[Vec<NodeId>],
    vertex: u32,
) -> Result<(), Memory>
    requires whole { length rows.old.items ≡ count (code_of code.now) }
    requires here { IsTable (runs_here (code_of code.now)) (count (code_of code.now)) here.now }
    requires entered { IsTable (runs_entered (code_of code.now)) (count (code_of code.now)) entered.now }
    ensures { OnOk result (rows.new.items ≡ slice_set rows.old.items vertex
        (room_by (code_of code.now) rows.old.items vertex)) }
{
    let index = vertex as usize;
    if index >= here.len() {
        return Ok(());
    }
    let id = NodeId::at(vertex);
    let runs = here[index].as_slice();
    let Some(room) = next_room(code, rows.as_slice(), runs, entered[index].as_slice(), id) else {
        return Err(Memory);
    };
    rows[index] = room;
    Ok(())
}

/// The Rooms of all nodes, found one after the other.
#[tactic(auto, using(crate::proofs::RoomLemmas::rooms_none, crate::proofs::RoomLemmas::rooms_more, crate::proofs::RoomLemmas::rooms_all))]
pub fn rooms(
    alloc: Global,
    code: &Code<'_>,
    here: &[Vec<NodeId>],
    entered: &[Vec<NodeId>],
    order: &[u32],
) -> Result<Vec<u64>, Memory>
    requires here { IsTable (runs_here (code_of code.now)) (count (code_of code.now)) here.now }
    requires entered { IsTable (runs_entered (code_of code.now)) (count (code_of code.now)) entered.now }
    ensures { IfOk result (λ rows. rows.items
        ≡ solved_rooms (code_of code.now) order.now (zero_rows (code_of code.now))) }
{
    let mut rows = vec![in alloc; 0u64; code.count()]?;
    for index in 0..order.len() {
        set_room(&mut rows, code, here, entered, order[index])?;
    }
    Ok(rows)
}
