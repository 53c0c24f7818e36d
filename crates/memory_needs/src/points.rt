//! The nodes and bodies that may show something of a class that reaches them.

ghost use Rattle.std.specs.Prelude.{◌≡◌, ◌++◌, IfOk, OnOk, false, slice_index_or};
ghost use Rattle.scj_tree.specs.Recursion.{joined_below};
ghost use Rattle.scj_model.specs.Code.{code_of};
ghost use Rattle.memory_needs.specs.ClassShown.{is_point};
ghost use Rattle.memory_needs.specs.Edges.{count};
ghost use Rattle.memory_needs.specs.RowLists.{if_picked};

use crate::code::Code;
use crate::shown::Shown;
use scj_base::{Memory, NodeId};
use scj_tree::row_or;
use std::alloc::Global;

/// The mark of a vertex.
pub fn is_marked(marks: &[bool], vertex: usize) -> bool
    ensures { result ≡ slice_index_or marks.now vertex false }
{
    match marks.get(vertex) {
        Some(mark) => *mark,
        None => false,
    }
}

/// Whether something may be shown at a number.
#[tactic(auto, unfolding(crate::specs::ClassShown::is_point))]
fn is_point(code: &Code<'_>, loops: &[bool], shown: &[Option<Shown>], id: NodeId) -> bool
    ensures { result ≡ is_point (code_of code.now) loops.now shown.now id }
{
    is_marked(loops, code.count() + id.number()) || row_or(shown, None, id).is_some()
}

/// Notes a number, if something may be shown there.
fn note_point(
    points: &mut Vec<NodeId>,
    code: &Code<'_>,
    loops: &[bool],
    shown: &[Option<Shown>],
    id: NodeId,
) -> Result<(), Memory>
    ensures { OnOk result (points.new.items ≡ points.old.items
        ++ if_picked (is_point (code_of code.now) loops.now shown.now) id) }
{
    if is_point(code, loops, shown, id) {
        points.push(id)?;
    }
    Ok(())
}

/// The numbers at which something may be shown.
#[tactic(auto, using(crate::proofs::RowLists::picked_next), unfolding(scj_tree::specs::Recursion::joined_below))]
pub fn all_points(
    alloc: Global,
    code: &Code<'_>,
    loops: &[bool],
    shown: &[Option<Shown>],
) -> Result<Vec<NodeId>, Memory>
    ensures { IfOk result (λ points. points.items
        ≡ joined_below (if_picked (is_point (code_of code.now) loops.now shown.now))
        (count (code_of code.now))) }
{
    let mut points = Vec::new(alloc);
    for number in 0..code.count() {
        note_point(&mut points, code, loops, shown, NodeId::at(number as u32))?;
    }
    Ok(points)
}
