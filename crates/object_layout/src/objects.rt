//! What the objects of each class have.

ghost use Rattle.std.specs.Prelude.{◌≡◌, ◌<◌, ◌≤◌, ℕ, List, [], filter, flat_map, is_some, length, map, reverse, IfOk};
ghost use Rattle.scj_tree.specs.Recursion.{lookup};
ghost use Rattle.scj_rules.specs.Definitions.{read};
ghost use Rattle.scj_rules.specs.Classes.{hidden_fields, superclasses};
ghost use Rattle.scj_rules.specs.Contexts.{declarations_of};
ghost use Rattle.scj_rules.specs.Layout.{literal_written};
ghost use Rattle.object_layout.specs.ObjectTables.{own_nodes, all_own_nodes, IsObjectRowOf, AreObjectRows};

use crate::fields::{instance_nodes, kinds_at};
use crate::parts::literal_written;
use class_rows::ClassTable;
use scj_base::ids::{APERIODIC_EVENT_HANDLER, PERIODIC_EVENT_HANDLER};
use scj_base::{ClassId, Memory, NodeId};
use scj_rules::SlotKind;
use scj_tree::Program;
use std::alloc::Global;

/// What the objects of a class have.
#[derive(Drop)]
pub struct ObjectRow {
    /// How many fields that nothing declares.
    pub(crate) hidden: u32,
    /// How many slots.
    pub(crate) slots: u32,
    /// The nodes of the fields that are declared.
    pub(crate) fields: Vec<NodeId>,
    /// What these hold.
    pub(crate) kinds: Vec<SlotKind>,
    /// The nodes of those that the class itself declares with a literal.
    pub(crate) literals: Vec<NodeId>,
}

/// How many fields that nothing declares an object of a class has.
#[tactic(auto, unfolding(scj_rules::specs::Classes::hidden_fields))]
fn hidden_fields(classes: &ClassTable, class: ClassId) -> u32
    ensures value { result ≡ hidden_fields (declarations_of classes.now).classes class }
    ensures few { result ≤ 4 }
{
    if classes.is_under(class, PERIODIC_EVENT_HANDLER) {
        return 4;
    }
    if classes.is_under(class, APERIODIC_EVENT_HANDLER) {
        return 2;
    }
    0
}

/// The instance fields that a class itself declares.
#[tactic(auto, using(crate::proofs::ObjectLemmas::own_nodes_are))]
fn own_nodes(alloc: Global, classes: &ClassTable, class: ClassId) -> Result<Vec<NodeId>, Memory>
    ensures { IfOk result (λ nodes. nodes.items ≡ own_nodes (declarations_of classes.now) class) }
{
    let nodes = instance_nodes(alloc, classes.program(), classes.members(class))?;
    Ok(nodes)
}

/// The instance fields that each class itself declares.
#[tactic(auto, unfolding(scj_tree::specs::Recursion::listed, crate::specs::ObjectTables::all_own_nodes), using(std::proofs::lemmas::List::map_push))]
fn all_own_nodes(alloc: Global, classes: &ClassTable) -> Result<Vec<Vec<NodeId>>, Memory>
    ensures { IfOk result (λ all. map (λ v. v.items) all.items ≡ all_own_nodes (declarations_of classes.now)) }
{
    let mut all = Vec::new(alloc);
    for number in 0..classes.class_count() {
        let own = own_nodes(alloc, classes, ClassId::at(number))?;
        all.push(own)?;
    }
    Ok(all)
}

/// The chain of a class, its last one first.
fn chain_down(alloc: Global, classes: &ClassTable, class: ClassId) -> Result<Vec<ClassId>, Memory>
    ensures { IfOk result (λ all. all.items ≡ reverse (superclasses (declarations_of classes.now).classes class)) }
{
    let mut walk = classes.superclasses(class);
    let mut all = Vec::new(alloc);
    while let Some(at) = walk.next() {
        all.push(at)?;
    }
    all.reverse();
    Ok(all)
}

/// The list of a class.
fn list_at(lists: &[Vec<NodeId>], class: ClassId) -> &[NodeId]
    ensures { result.now ≡ lookup [] (map (λ v. v.items) lists.now) class }
{
    let at = class.number() as usize;
    if at >= lists.len() {
        return &[];
    }
    let list = &lists[at];
    list.as_slice()
}

/// The lists of these classes, end to end.
fn lists_joined(
    alloc: Global,
    lists: &[Vec<NodeId>],
    classes: &[ClassId],
) -> Result<Vec<NodeId>, Memory>
    ensures { IfOk result
        (λ nodes. nodes.items ≡ flat_map (λ (class : ℕ). lookup [] (map (λ v. v.items) lists.now) class) classes.now) }
{
    let mut nodes = Vec::new(alloc);
    let mut others = classes;
    while let [class, rest @ ..] = others {
        nodes.extend_from_slice(list_at(lists, *class))?;
        others = rest;
    }
    Ok(nodes)
}

/// Those of these fields that are declared with a literal.
fn with_literal(alloc: Global, program: &Program, ids: &[NodeId]) -> Result<Vec<NodeId>, Memory>
    ensures { IfOk result
        (λ nodes. nodes.items ≡ filter (λ id. is_some (read program.now.nodes literal_written id)) ids.now) }
{
    let mut nodes = Vec::new(alloc);
    let mut others = ids;
    while let [id, rest @ ..] = others {
        if literal_written(program, *id).is_some() {
            nodes.push(*id)?;
        }
        others = rest;
    }
    Ok(nodes)
}

/// What the objects of a class have, from the own fields of each class.
fn object_row(
    alloc: Global,
    classes: &ClassTable,
    own: &[Vec<NodeId>],
    class: ClassId,
) -> Result<ObjectRow, Memory>
    requires { map (λ v. v.items) own.now ≡ all_own_nodes (declarations_of classes.now) }
    ensures { IfOk result (λ row. IsObjectRowOf (declarations_of classes.now) class row) }
{
    let program = classes.program();
    let chain = chain_down(alloc, classes, class)?;
    let fields = lists_joined(alloc, own, &chain)?;
    let kinds = kinds_at(alloc, program, &fields)?;
    let literals = with_literal(alloc, program, list_at(own, class))?;
    let hidden = hidden_fields(classes, class);
    if fields.len() > (u32::MAX - 4) as usize {
        return Err(Memory);
    }
    let slots = hidden + fields.len() as u32;
    Ok(ObjectRow {
        hidden,
        slots,
        fields,
        kinds,
        literals,
    })
}

/// What the objects of each class have.
pub fn object_rows(alloc: Global, classes: &ClassTable) -> Result<Vec<ObjectRow>, Memory>
    ensures { IfOk result
        (λ rows. AreObjectRows (declarations_of classes.now) (length (declarations_of classes.now).classes)
        rows.items) }
{
    let own = all_own_nodes(alloc, classes)?;
    let mut rows = Vec::new(alloc);
    for number in 0..classes.class_count() {
        let row = object_row(alloc, classes, &own, ClassId::at(number))?;
        rows.push(row)?;
    }
    Ok(rows)
}
