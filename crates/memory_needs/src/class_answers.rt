//! The answer for a handler class.

ghost use Rattle.std.specs.Prelude.{◌≡◌, ◌<◌, ◌≤◌, ◌^◌, Bool, Contains, IfOk, length, slice_index_or, false, None};
ghost use Rattle.scj_rules.specs.declared.views.Body.TheVariants.{Written};
ghost use Rattle.scj_model.specs.Code.{code_of};
ghost use Rattle.memory_needs.specs.ClassShown.{answer_for, bytes_shown, first_shown, reached_at, recursion_at, storage_shown};
ghost use Rattle.memory_needs.specs.Edges.{count};
ghost use Rattle.memory_needs.specs.Formed.{IsFormed};
ghost use Rattle.memory_needs.specs.ProgramTables.{AreTablesOf};
ghost use Rattle.memory_needs.specs.Reach.{handler_body};
ghost use Rattle.memory_needs.specs.Rows.{IsAnswer, handler_classes};
ghost use Rattle.memory_needs.specs.WellFormed.{IsWellFormed};

use crate::answers::{BoundAnswer, NoBound};
use crate::chosen::first_of;
use crate::code::Code;
use crate::needs::number_literal;
use crate::points::is_marked;
use crate::program_tables::Tables;
use crate::shown::{Shown, position_of};
use crate::sites::node_of;
use crate::storage::storage_node;
use directed_graphs::reached;
use scj_base::{ClassId, Memory, NodeId};
use scj_tree::row_or;
use std::alloc::Global;

/// That a body which is reached leads to itself.
#[tactic(auto, unfolding(crate::specs::ClassShown::recursion_at))]
fn recursion_at(code: &Code<'_>, marks: &[bool], loops: &[bool], body: NodeId) -> Option<Shown>
    ensures { result ≡ recursion_at (code_of code.now) marks.now loops.now body }
{
    let vertex = code.count() + body.number();
    if is_marked(marks, vertex) && is_marked(loops, vertex) {
        return Some(Shown {
            cause: NoBound::Recursion,
            at: position_of(code, body),
        });
    }
    None
}

/// What a node shows, if it is reached.
#[tactic(auto, unfolding(crate::specs::ClassShown::reached_at))]
fn reached_at(marks: &[bool], shown: &[Option<Shown>], node: NodeId) -> Option<Shown>
    ensures { result ≡ reached_at marks.now shown.now node }
{
    if is_marked(marks, node.number()) {
        return row_or(shown, None, node);
    }
    None
}

/// The first of what is shown at these numbers by bodies and nodes that are reached.
#[tactic(auto, unfolding(crate::specs::ClassShown::first_shown))]
fn first_shown(
    code: &Code<'_>,
    marks: &[bool],
    loops: &[bool],
    shown: &[Option<Shown>],
    points: &[NodeId],
) -> Option<Shown>
    ensures { result ≡ first_shown (code_of code.now) marks.now loops.now shown.now None points.now }
{
    let mut best = None;
    let mut rest = points;
    while let [id, others @ ..] = rest {
        let recursion = recursion_at(code, marks, loops, *id);
        best = first_of(first_of(best, recursion), reached_at(marks, shown, *id));
        rest = others;
    }
    best
}

/// What the number of a storage shows: that it is none, or below what is needed.
#[tactic(auto, using(op_list::proofs::CodeLemmas::nodes_are), unfolding(crate::specs::ClassShown::bytes_shown, scj_model::specs::Code::code_of))]
fn bytes_shown(code: &Code<'_>, class: ClassId, need: u64, number: NodeId) -> Option<Shown>
    ensures { result ≡ bytes_shown (code_of code.now) class need number }
{
    match number_literal(code.program(), number) {
        None => Some(Shown {
            cause: NoBound::NotLiteral,
            at: position_of(code, number),
        }),
        Some(bytes) => {
            if (bytes as u64) < need {
                return Some(Shown {
                    cause: NoBound::TooSmall,
                    at: code.layout().class_position(class),
                });
            }
            None
        }
    }
}

/// What the storage of a class shows.
#[tactic(auto, unfolding(crate::specs::ClassShown::storage_shown))]
fn storage_shown(code: &Code<'_>, class: ClassId, need: u64) -> Option<Shown>
    requires { IsFormed (code_of code.now).program class }
    ensures { result ≡ storage_shown (code_of code.now) class need }
{
    match storage_node(code, class) {
        Some(number) => bytes_shown(code, class, need, number),
        None => None,
    }
}

/// The answer for what is shown first.
#[tactic(auto, unfolding(crate::specs::ClassShown::answer_for))]
fn answer_for(best: Option<Shown>, need: u64) -> BoundAnswer
    ensures { result ≡ answer_for best need }
{
    match best {
        None => BoundAnswer::Yes { bytes: need },
        Some(shown) => BoundAnswer::No {
            cause: shown.cause,
            at: shown.at,
        },
    }
}

/// The node of the `handleAsyncEvent` of a handler class.
pub fn handler_node(code: &Code<'_>, class: ClassId) -> NodeId
    requires formed { IsWellFormed (code_of code.now) }
    requires listed { Contains (handler_classes (code_of code.now).program) class }
    ensures handles { handler_body (code_of code.now) class ≡ Some (Written result) }
    ensures there { result < count (code_of code.now) }
{
    match node_of(code.handler_body(class)) {
        Some(node) => node,
        None => unreachable!(),
    }
}

/// The answer for a handler class.
pub fn answer(
    alloc: Global,
    code: &Code<'_>,
    tables: &Tables,
    class: ClassId,
) -> Result<BoundAnswer, Memory>
    requires tables { AreTablesOf (code_of code.now) tables.now }
    requires formed { IsWellFormed (code_of code.now) }
    requires listed { Contains (handler_classes (code_of code.now).program) class }
    ensures { IfOk result (IsAnswer (code_of code.now) class) }
{
    code.children_first();
    let handler = handler_node(code, class);
    let from = (code.count() + handler.number()) as u32;
    let marks = reached(alloc, tables.edges.as_slice(), from)?;
    let loops = tables.order.loops.as_slice();
    let shown = tables.shown.as_slice();
    let points = tables.points.as_slice();
    let best = first_shown(code, marks.as_slice(), loops, shown, points);
    let need = row_or(tables.needs.as_slice(), 0, handler);
    Ok(answer_for(first_of(best, storage_shown(code, class, need)), need))
}
