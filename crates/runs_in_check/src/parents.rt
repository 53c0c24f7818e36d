//! The parent of each node.

ghost use Rattle.std.specs.Prelude.{◌≡◌, ◌∷◌, ℕ, [], IfOk, None, Some, replicate};
ghost use Rattle.scj_tree.specs.Parts.{ids_of};
ghost use Rattle.scj_tree.specs.Recursion.{lookup};
ghost use Rattle.scj_tree.specs.Shape.{optional};
ghost use Rattle.scj_rules.specs.Contexts.{parent_in};
ghost use Rattle.runs_in_check.specs.Guards.{noted};

use scj_base::{Memory, NodeId};
use scj_tree::{Parts, Program, parts_of};
use std::alloc::Global;

/// Notes the parent of a child.
fn put(rows: &mut Vec<Option<NodeId>>, parent: NodeId, child: NodeId)
    ensures { rows.new.items ≡ noted parent rows.old.items (child ∷ []) }
{
    let number = child.number();
    if number < rows.len() {
        rows[number] = Some(parent);
    }
}

/// The same for a child that may be missing.
fn put_optional(rows: &mut Vec<Option<NodeId>>, parent: NodeId, child: Option<NodeId>)
    ensures { rows.new.items ≡ noted parent rows.old.items (optional child) }
{
    if let Some(child) = child {
        put(rows, parent, child);
    }
}

/// The same for all of a list.
fn put_all(rows: &mut Vec<Option<NodeId>>, parent: NodeId, list: &[NodeId])
    ensures { rows.new.items ≡ noted parent rows.old.items list.now }
{
    let mut rest = list;
    while let [child, others @ ..] = rest {
        put(rows, parent, *child);
        rest = others;
    }
}

/// The same for all children of a node.
#[tactic(auto, using(crate::proofs::ParentRows::noted_append))]
fn put_parts(rows: &mut Vec<Option<NodeId>>, parent: NodeId, parts: &Parts<'_>)
    ensures { rows.new.items ≡ noted parent rows.old.items (ids_of parts.now) }
{
    match parts {
        Parts::Nothing => {}
        Parts::One(child) => put(rows, parent, *child),
        Parts::Two(first, second) => {
            put(rows, parent, *first);
            put(rows, parent, *second);
        }
        Parts::Four(first, second, third, fourth) => {
            put_optional(rows, parent, *first);
            put_optional(rows, parent, *second);
            put_optional(rows, parent, *third);
            put_optional(rows, parent, *fourth);
        }
        Parts::Listed(first, second, list) => {
            put_optional(rows, parent, *first);
            put_optional(rows, parent, *second);
            put_all(rows, parent, list);
        }
    }
}

/// So many nodes without parents.
fn without_parents(alloc: Global, count: usize) -> Result<Vec<Option<NodeId>>, Memory>
    ensures { IfOk result (λ rows. rows.items ≡ replicate count None) }
{
    Ok(vec![in alloc; None; count]?)
}

/// The parents of the nodes of a program.
#[tactic(auto, using(crate::proofs::ParentRows::without_parents, crate::proofs::ParentRows::next_parents, crate::proofs::ParentRows::are_parents))]
pub fn parents_of(alloc: Global, program: &Program) -> Result<Vec<Option<NodeId>>, Memory>
    ensures { IfOk result (λ rows. (id : ℕ) → lookup None rows.items id ≡ parent_in program.now.nodes id) }
{
    let mut rows = without_parents(alloc, program.len())?;
    let mut index = program.len();
    while index > 0 {
        index -= 1;
        let parent = NodeId::at(index as u32);
        put_parts(&mut rows, parent, &parts_of(program.node(parent)));
    }
    Ok(rows)
}
