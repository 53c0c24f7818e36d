//! Laying out bodies, each from its end.

ghost use Rattle.std.specs.Prelude.{◌≡◌, ◌<◌, ◌≤◌, ◌++◌, ◌∷◌, [], ℕ, Some, None, IfOk, length, drop, flat_map, slice_get};
ghost use Rattle.scj_model.specs.Code.{code_of};
ghost use Rattle.scj_model.specs.Ops.{ops_of, optional_ops, literal_ops};
ghost use Rattle.op_list.specs.Parts.{items_at, part_ops};
ghost use Rattle.op_list.specs.Choices.{choice_of, IsBelowIfAny, IsChoiceBelow, IsPartBelow};
ghost use Rattle.op_list.specs.declared.choices.Choice.TheVariants as chosen;
ghost use Rattle.op_list.specs.Rows.{IsLaid};

use crate::choices::{Choice, TurnParts, TwoParts, choice_of};
use crate::code::Code;
use crate::nodes::{items_at, parts_at};
use crate::parts::Part;
use crate::rows::Row;
use crate::single_rows::{lay_plain, put_row, set_row};
use scj_base::{ClassId, Memory, NodeId};
use scj_model::Op;

/// Lays out the literals of a class from a place on.
fn lay_literals(
    code: &Code<'_>,
    rows: &mut Vec<Row>,
    from: usize,
    class: ClassId,
    next: u32,
) -> Result<u32, Memory>
    requires inside { next < length rows.old.items }
    ensures { IfOk result (λ start. IsLaid (code_of code.now) rows.old.items rows.new.items
        (drop from (literal_ops (code_of code.now) class)) next start) }
{
    let fields = code.layout().literals(class);
    let mut index = fields.len();
    let mut start = next;
    if index < from {
        return Ok(next);
    }
    while index > from {
        index -= 1;
        start = lay_plain(code, rows, Op::Init(fields[index]), start)?;
    }
    Ok(start)
}

/// Lays out the items of a node from a place on.
#[cycle(lay)]
fn lay_items(
    code: &Code<'_>,
    rows: &mut Vec<Row>,
    bound: NodeId,
    from: usize,
    list: NodeId,
    next: u32,
) -> Result<u32, Memory>
    requires below { (k item : ℕ) → slice_get (items_at code.now.nodes list) k ≡ Some item → item < bound }
    requires inside { next < length rows.old.items }
    ensures { IfOk result (λ start. IsLaid (code_of code.now) rows.old.items rows.new.items
        (flat_map (ops_of (code_of code.now)) (drop from (items_at code.now.nodes list))) next start) }
{
    let items = items_at(code, list);
    let mut index = items.len();
    let mut start = next;
    if index < from {
        return Ok(next);
    }
    while index > from {
        index -= 1;
        start = lay_node(code, rows, items[index], start)?;
    }
    Ok(start)
}

/// Lays out a part that may be missing.
#[cycle(lay)]
fn lay_optional(
    code: &Code<'_>,
    rows: &mut Vec<Row>,
    bound: NodeId,
    id: Option<NodeId>,
    next: u32,
) -> Result<u32, Memory>
    requires below { IsBelowIfAny bound id }
    requires inside { next < length rows.old.items }
    ensures { IfOk result (λ start. IsLaid (code_of code.now) rows.old.items rows.new.items
        (optional_ops (code_of code.now) id) next start) }
{
    match id {
        None => Ok(next),
        Some(id) => {
            let start = lay_node(code, rows, id, next)?;
            Ok(start)
        }
    }
}

/// Lays out an operation that goes on with one of two parts.
#[cycle(lay)]
fn lay_either(
    code: &Code<'_>,
    rows: &mut Vec<Row>,
    bound: NodeId,
    op: Op,
    parts: TwoParts,
    next: u32,
) -> Result<u32, Memory>
    requires choice { choice_of code.now.nodes op ≡ chosen.Either parts }
    requires on_true { IsBelowIfAny bound parts.on_true }
    requires on_false { IsBelowIfAny bound parts.on_false }
    requires inside { next < length rows.old.items }
    ensures { IfOk result (λ start.
        IsLaid (code_of code.now) rows.old.items rows.new.items (op ∷ []) next start) }
{
    let if_true = lay_optional(code, rows, bound, parts.on_true, next)?;
    let if_false = lay_optional(code, rows, bound, parts.on_false, next)?;
    let start = put_row(code, rows, &op, next, if_true, if_false)?;
    Ok(start)
}

/// Lays out one turn of a loop in front of a place.
#[cycle(lay)]
fn lay_turn(
    code: &Code<'_>,
    rows: &mut Vec<Row>,
    bound: NodeId,
    parts: TurnParts,
    next: u32,
) -> Result<u32, Memory>
    requires body { parts.body < bound }
    requires step { IsBelowIfAny bound parts.step }
    requires test { parts.test < bound }
    requires inside { next < length rows.old.items }
    ensures { IfOk result (λ start. IsLaid (code_of code.now) rows.old.items rows.new.items
        (ops_of (code_of code.now) parts.body
        ++ (optional_ops (code_of code.now) parts.step ++ ops_of (code_of code.now) parts.test)) next start) }
{
    let test = lay_node(code, rows, parts.test, next)?;
    let step = lay_optional(code, rows, bound, parts.step, test)?;
    let body = lay_node(code, rows, parts.body, step)?;
    Ok(body)
}

/// Lays out a loop's operation: its row, in front of it one turn, and then the row gets the turn's place.
#[cycle(lay)]
fn lay_loop(
    code: &Code<'_>,
    rows: &mut Vec<Row>,
    bound: NodeId,
    op: Op,
    parts: TurnParts,
    next: u32,
) -> Result<u32, Memory>
    requires choice { choice_of code.now.nodes op ≡ chosen.Turn parts }
    requires body { parts.body < bound }
    requires step { IsBelowIfAny bound parts.step }
    requires test { parts.test < bound }
    requires inside { next < length rows.old.items }
    ensures { IfOk result (λ start.
        IsLaid (code_of code.now) rows.old.items rows.new.items (op ∷ []) next start) }
{
    let start = put_row(code, rows, &op, next, next, next)?;
    let turn = lay_turn(code, rows, bound, parts, start)?;
    set_row(code, rows, start, &op, next, turn);
    Ok(start)
}

/// Lays out an operation, by what it chooses.
#[cycle(lay)]
fn lay_choice(
    code: &Code<'_>,
    rows: &mut Vec<Row>,
    bound: NodeId,
    op: Op,
    choice: &Choice,
    next: u32,
) -> Result<u32, Memory>
    requires choice { choice_of code.now.nodes op ≡ choice.now }
    requires below { IsChoiceBelow bound choice.now }
    requires inside { next < length rows.old.items }
    ensures { IfOk result (λ start.
        IsLaid (code_of code.now) rows.old.items rows.new.items (op ∷ []) next start) }
{
    match choice {
        Choice::Plain => lay_plain(code, rows, op, next),
        Choice::Either(parts) => lay_either(code, rows, bound, op, *parts, next),
        Choice::Turn(parts) => lay_loop(code, rows, bound, op, *parts, next),
    }
}

/// Lays out an operation, with what it puts in front of the rest.
#[cycle(lay)]
fn lay_op(
    code: &Code<'_>,
    rows: &mut Vec<Row>,
    bound: NodeId,
    op: Op,
    next: u32,
) -> Result<u32, Memory>
    requires below { IsChoiceBelow bound (choice_of code.now.nodes op) }
    requires inside { next < length rows.old.items }
    ensures { IfOk result (λ start.
        IsLaid (code_of code.now) rows.old.items rows.new.items (op ∷ []) next start) }
{
    let choice = choice_of(code, &op);
    lay_choice(code, rows, bound, op, &choice, next)
}

/// Lays out a part of a node.
#[cycle(lay)]
fn lay_part(
    code: &Code<'_>,
    rows: &mut Vec<Row>,
    bound: NodeId,
    part: Part,
    next: u32,
) -> Result<u32, Memory>
    requires below { IsPartBelow code.now.nodes bound part }
    requires inside { next < length rows.old.items }
    ensures { IfOk result (λ index. IsLaid (code_of code.now) rows.old.items rows.new.items
        (part_ops (code_of code.now) (ops_of (code_of code.now)) part) next index) }
{
    match part {
        Part::Visit(id) => lay_node(code, rows, id, next),
        Part::Emit(op) => lay_op(code, rows, bound, op, next),
        Part::Items { index, list } => lay_items(code, rows, bound, index, list, next),
        Part::Literals { index, class } => lay_literals(code, rows, index, class, next),
    }
}

/// Lays out a node in front of a place, and tells where it begins.
#[cycle(lay)]
pub fn lay_node(code: &Code<'_>, rows: &mut Vec<Row>, id: NodeId, next: u32) -> Result<u32, Memory>
    requires inside { next < length rows.old.items }
    ensures { IfOk result (λ start. IsLaid (code_of code.now) rows.old.items rows.new.items
        (ops_of (code_of code.now) id) next start) }
{
    // that each node stands behind its parts is told by the count
    let _ = code.node_count();
    let listed = parts_at(code, id);
    let parts = listed.items();
    let mut index = parts.len();
    let mut start = next;
    while index > 0 {
        index -= 1;
        start = lay_part(code, rows, id, parts[index], start)?;
    }
    Ok(start)
}
