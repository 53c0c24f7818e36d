//! The contexts of the children of a node.

ghost use Rattle.std.specs.Prelude.{◌≡◌, ◌+◌, ◌++◌, ◌∷◌, ℕ, List, [], IfOk, OnOk, Some, slice_get};
ghost use Rattle.scj_tree.specs.declared.nodes.Node.{Node as Tree};
ghost use Rattle.scj_tree.specs.Forest.{IsForest, joined};
ghost use Rattle.scj_tree.specs.Parts.{ids_of};
ghost use Rattle.scj_tree.specs.Recursion.{lookup};
ghost use Rattle.scj_tree.specs.Shape.{optional};
ghost use Rattle.scj_rules.specs.Contexts.{outermost, last_variable, number_of_class};
ghost use Rattle.node_contexts.specs.Packed.{reported};
ghost use Rattle.node_contexts.specs.Steps.{object_in, of_child, declared_behind, last_at, last_behind, AreReported, AreSpread};

use crate::kinds::{Difference, Few, difference_of, few_of};
use crate::packed::{PackedContext, kept_node};
use node_views::is_variable;
use scj_base::{ClassId, Memory, NodeId};
use scj_tree::{Node, Parts, Program, parts_of, row_or};

/// What the children of a node share.
#[derive(Clone, Copy)]
pub struct Family {
    pub base: PackedContext,
    pub difference: Difference,
}

/// The row of a node.
pub fn row_at(rows: &[PackedContext], id: NodeId) -> PackedContext
    ensures { result ≡ lookup outermost rows.now id }
{
    row_or(rows, PackedContext::outermost(), id)
}

/// The last of these nodes that declares a variable, if one does, and else the one that is known before them.
#[tactic(auto, unfolding(scj_rules::specs::Contexts::last_variable))]
fn last_among(program: &Program, ids: &[NodeId], before: u32) -> Result<u32, Memory>
    ensures { IfOk result (λ last. reported last ≡ last_variable program.now.nodes (reported before) ids.now) }
{
    let mut known = before;
    let mut rest = ids;
    while let [id, others @ ..] = rest {
        if is_variable(program, *id) {
            known = kept_node(*id)?;
        }
        rest = others;
    }
    Ok(known)
}

/// The last variable that is known behind no child yet.
#[tactic(auto, unfolding(scj_rules::specs::Contexts::parameter_nodes, scj_rules::specs::Contexts::last_variable))]
fn first_known(program: &Program, difference: &Difference, before: u32) -> Result<u32, Memory>
    ensures { IfOk result (λ known. reported known ≡ last_variable program.now.nodes (reported before)
        (declared_behind program.now.nodes difference.now [])) }
{
    match difference {
        Difference::Parameters(parameters) => match program.get(*parameters) {
            Some(Node::Parameters { list, .. }) => last_among(program, list.items(), before),
            _ => Ok(before),
        },
        _ => Ok(before),
    }
}

/// The last variable that is known behind a child.
fn last_behind(program: &Program, family: &Family, known: u32, child: NodeId) -> Result<u32, Memory>
    ensures { IfOk result (λ last. reported last ≡ last_behind program.now.nodes family.now.difference (reported known) child) }
{
    match &family.difference {
        Difference::InTurn => {
            if is_variable(program, child) {
                kept_node(child)
            } else {
                Ok(known)
            }
        }
        _ => Ok(known),
    }
}

/// The row of a child.
fn row_of(family: &Family, known: u32, child: NodeId) -> PackedContext
    ensures { result ≡ of_child family.now.base (object_in family.now.difference)
        (last_at family.now.difference family.now.base.last (reported known) child) child }
{
    let base = family.base;
    match &family.difference {
        Difference::Object(object) => base.of_child(known, *object == child),
        Difference::Parameters(parameters) => {
            if child == *parameters {
                base.of_child(base.last(), false)
            } else {
                base.of_child(known, false)
            }
        }
        _ => base.of_child(known, false),
    }
}

/// Writes the row of a child, and tells the last variable that is known behind it.
#[tactic(auto, using(crate::proofs::StepLemmas::spread_next))]
fn put(
    program: &Program,
    rows: &mut Vec<PackedContext>,
    family: &Family,
    known: u32,
    child: NodeId,
) -> Result<u32, Memory>
    ensures { IfOk result (λ next. (parent : ℕ) (node : Tree) (rest : List ℕ) →
        AreSpread program.now parent node family.now (child ∷ rest) (reported known) rows.old.items →
        AreSpread program.now parent node family.now rest (reported next) rows.new.items) }
{
    let number = child.number();
    if number >= rows.len() {
        return Err(Memory);
    }
    rows[number] = row_of(family, known, child);
    let next = last_behind(program, family, known, child)?;
    Ok(next)
}

/// The same for a child that may be missing.
fn put_optional(
    program: &Program,
    rows: &mut Vec<PackedContext>,
    family: &Family,
    known: u32,
    child: Option<NodeId>,
) -> Result<u32, Memory>
    ensures { IfOk result (λ next. (parent : ℕ) (node : Tree) (rest : List ℕ) →
        AreSpread program.now parent node family.now (optional child ++ rest) (reported known) rows.old.items →
        AreSpread program.now parent node family.now rest (reported next) rows.new.items) }
{
    match child {
        Some(child) => put(program, rows, family, known, child),
        None => Ok(known),
    }
}

/// The same for all children of a list.
fn put_all(
    program: &Program,
    rows: &mut Vec<PackedContext>,
    family: &Family,
    known: u32,
    list: &[NodeId],
) -> Result<u32, Memory>
    ensures { IfOk result (λ next. (parent : ℕ) (node : Tree) →
        AreSpread program.now parent node family.now list.now (reported known) rows.old.items →
        AreSpread program.now parent node family.now [] (reported next) rows.new.items) }
{
    let mut known = known;
    let mut rest = list;
    while let [child, others @ ..] = rest {
        known = put(program, rows, family, known, *child)?;
        rest = others;
    }
    Ok(known)
}

/// The same for two children that may be missing.
fn put_pair(
    program: &Program,
    rows: &mut Vec<PackedContext>,
    family: &Family,
    known: u32,
    first: Option<NodeId>,
    second: Option<NodeId>,
) -> Result<u32, Memory>
    ensures { IfOk result (λ next. (parent : ℕ) (node : Tree) (rest : List ℕ) →
        AreSpread program.now parent node family.now (optional first ++ (optional second ++ rest)) (reported known)
        rows.old.items →
        AreSpread program.now parent node family.now rest (reported next) rows.new.items) }
{
    let next = put_optional(program, rows, family, known, first)?;
    let last = put_optional(program, rows, family, next, second)?;
    Ok(last)
}

/// The same for all children of a node.
fn put_parts(
    program: &Program,
    rows: &mut Vec<PackedContext>,
    family: &Family,
    known: u32,
    parts: &Parts<'_>,
) -> Result<u32, Memory>
    ensures { IfOk result (λ next. (parent : ℕ) (node : Tree) →
        AreSpread program.now parent node family.now (ids_of parts.now) (reported known) rows.old.items →
        AreSpread program.now parent node family.now [] (reported next) rows.new.items) }
{
    match parts {
        Parts::Nothing => Ok(known),
        Parts::One(child) => {
            let last = put(program, rows, family, known, *child)?;
            Ok(last)
        }
        Parts::Two(first, second) => {
            let next = put(program, rows, family, known, *first)?;
            let last = put(program, rows, family, next, *second)?;
            Ok(last)
        }
        Parts::Four(first, second, third, fourth) => {
            let next = put_pair(program, rows, family, known, *first, *second)?;
            let last = put_pair(program, rows, family, next, *third, *fourth)?;
            Ok(last)
        }
        Parts::Listed(first, second, list) => {
            let next = put_pair(program, rows, family, known, *first, *second)?;
            let last = put_all(program, rows, family, next, *list)?;
            Ok(last)
        }
    }
}

/// Writes the rows of the children of a node of any kind.
fn spread_more(
    program: &Program,
    class: Option<ClassId>,
    parent: NodeId,
    node: &Node,
    rows: &mut Vec<PackedContext>,
) -> Result<(), Memory>
    requires whole { IsForest program.now }
    requires there { slice_get program.now.nodes parent ≡ Some node.now }
    requires number { class ≡ number_of_class (joined program.now.files) parent }
    requires reported { AreReported program.now (parent + 1) [] rows.old.items }
    ensures { OnOk result (AreReported program.now parent [] rows.new.items) }
{
    let base = row_at(rows, parent).shared(class, parent, node)?;
    let family = Family {
        base,
        difference: difference_of(node),
    };
    let known = first_known(program, &family.difference, base.last())?;
    put_parts(program, rows, &family, known, &parts_of(node))?;
    Ok(())
}

/// Writes the rows of the children of a node. `class` is its number, if it is a class.
pub fn spread_children(
    program: &Program,
    class: Option<ClassId>,
    parent: NodeId,
    node: &Node,
    rows: &mut Vec<PackedContext>,
) -> Result<(), Memory>
    requires whole { IsForest program.now }
    requires there { slice_get program.now.nodes parent ≡ Some node.now }
    requires number { class ≡ number_of_class (joined program.now.files) parent }
    requires reported { AreReported program.now (parent + 1) [] rows.old.items }
    ensures { OnOk result (AreReported program.now parent [] rows.new.items) }
{
    let None = class else {
        return spread_more(program, class, parent, node, rows);
    };
    match few_of(node) {
        Few::Nothing => Ok(()),
        Few::One(child) => {
            let base = row_at(rows, parent).shared(None, parent, node)?;
            let difference = Difference::Nothing;
            let family = Family { base, difference };
            put(program, rows, &family, base.last(), child)?;
            Ok(())
        }
        Few::Two(first, second) => {
            let base = row_at(rows, parent).shared(None, parent, node)?;
            let difference = Difference::Nothing;
            let family = Family { base, difference };
            let known = put(program, rows, &family, base.last(), first)?;
            put(program, rows, &family, known, second)?;
            Ok(())
        }
        Few::Listed(list) => {
            let base = row_at(rows, parent).shared(None, parent, node)?;
            let difference = Difference::InTurn;
            let family = Family { base, difference };
            put_all(program, rows, &family, base.last(), list)?;
            Ok(())
        }
        Few::More => spread_more(program, None, parent, node, rows),
    }
}
