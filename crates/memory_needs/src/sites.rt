//! The bodies that a node may run.

ghost use Rattle.std.specs.Prelude.{◌≡◌, ◌∷◌, ◌++◌, [], IfOk, OnOk, option_and_then, option_to_list};
ghost use Rattle.scj_rules.specs.Bodies.{class_node, class_of_body, constructor_body};
ghost use Rattle.scj_model.specs.Code.{code_of};
ghost use Rattle.memory_needs.specs.Targets.{call_targets, constructor_targets, memory_targets, super_targets, targets_entered, targets_here, unwritten_super_targets};
ghost use Rattle.memory_needs.specs.Edges.{count, runs_entered, runs_here, written_nodes};
ghost use Rattle.memory_needs.specs.Sites.{IsTable, class_nodes, nodes_under};

use crate::code::{Asked, Code};
use scj_base::ids::{MANAGED_MEMORY_ENTER_PRIVATE_MEMORY, MANAGED_MEMORY_EXECUTE_IN_AREA_OF};
use scj_base::{ClassId, Memory, NodeId};
use scj_builtins::FRAMEWORK_CLASS_COUNT;
use scj_rules::{Binding, Body};
use scj_tree::Node;
use std::alloc::Global;

/// The node of a body that is written.
#[tactic(auto, unfolding(crate::specs::Edges::written_nodes))]
fn written(body: Body) -> Option<NodeId>
    ensures { option_to_list result ≡ written_nodes (body ∷ []) }
{
    match body {
        Body::Written(node) => Some(node),
        Body::Empty => None,
    }
}

/// The node of a body, if it is written.
#[tactic(auto, unfolding(crate::specs::Edges::written_nodes))]
pub fn node_of(body: Option<Body>) -> Option<NodeId>
    ensures { option_to_list result ≡ written_nodes (option_to_list body) }
{
    match body {
        Some(body) => written(body),
        None => None,
    }
}

/// Notes the node of a body, if it is written.
fn note_body(found: &mut Vec<NodeId>, body: Option<Body>) -> Result<(), Memory>
    ensures { OnOk result (found.new.items ≡ found.old.items ++ written_nodes (option_to_list body)) }
{
    if let Some(node) = node_of(body) {
        found.push(node)?;
    }
    Ok(())
}

/// Notes the body that is asked of a class, if it is a concrete one under another one.
#[tactic(auto, unfolding(crate::specs::Sites::class_nodes))]
fn note_class(
    found: &mut Vec<NodeId>,
    code: &Code<'_>,
    on: ClassId,
    asked: &Asked,
    class: ClassId,
) -> Result<(), Memory>
    ensures { OnOk result (found.new.items ≡ found.old.items
        ++ class_nodes (code_of code.now).program on asked.now class) }
{
    if code.is_concrete_under(on, class) {
        note_body(found, code.asked_body(asked, class))?;
    }
    Ok(())
}

/// Notes the bodies that are asked of the concrete classes under a class.
#[tactic(auto, using(crate::proofs::SiteLemmas::none_joined, scj_tree::proofs::RecursionLemmas::joined_next, crate::proofs::SiteLemmas::classes_are))]
fn note_under(
    found: &mut Vec<NodeId>,
    code: &Code<'_>,
    on: ClassId,
    asked: &Asked,
) -> Result<(), Memory>
    ensures { OnOk result (found.new.items ≡ found.old.items ++ nodes_under (code_of code.now).program on asked.now) }
{
    for number in 0..code.classes().class_count() {
        note_class(found, code, on, asked, ClassId::at(number))?;
    }
    Ok(())
}

/// Notes what a call runs.
#[tactic(auto, using(crate::proofs::SiteLemmas::dispatched_is), unfolding(crate::specs::Targets::call_targets, crate::specs::Edges::written_nodes, crate::specs::Sites::asked_body))]
fn note_call(found: &mut Vec<NodeId>, code: &Code<'_>, binding: &Binding) -> Result<(), Memory>
    ensures { OnOk result (found.new.items ≡ found.old.items
        ++ written_nodes (call_targets (code_of code.now).program binding.now)) }
{
    match binding {
        Binding::Method(target) => note_under(found, code, target.on, &Asked::Method(target.id)),
        Binding::StaticMethod(target) => {
            note_body(found, code.asked_body(&Asked::Method(target.id), target.on))
        }
        _ => Ok(()),
    }
}

/// Notes the constructor of a class.
#[tactic(auto, unfolding(scj_model::specs::Code::code_of))]
fn note_class_constructor(
    found: &mut Vec<NodeId>,
    code: &Code<'_>,
    class: ClassId,
) -> Result<(), Memory>
    ensures { OnOk result (found.new.items ≡ found.old.items
        ++ written_nodes (option_to_list (constructor_body (code_of code.now).program class))) }
{
    note_body(found, code.layout().constructor(class))
}

/// Notes what `new` runs.
#[tactic(auto, unfolding(crate::specs::Targets::constructor_targets, crate::specs::Edges::written_nodes))]
fn note_constructor(
    found: &mut Vec<NodeId>,
    code: &Code<'_>,
    binding: &Binding,
) -> Result<(), Memory>
    ensures { OnOk result (found.new.items ≡ found.old.items
        ++ written_nodes (constructor_targets (code_of code.now).program binding.now)) }
{
    match binding {
        Binding::Class(class) => note_class_constructor(found, code, *class),
        _ => Ok(()),
    }
}

/// Notes what a super part runs.
#[tactic(auto, unfolding(crate::specs::Targets::super_targets, crate::specs::Targets::constructor_targets, crate::specs::Edges::written_nodes))]
fn note_super(found: &mut Vec<NodeId>, code: &Code<'_>, binding: &Binding) -> Result<(), Memory>
    ensures { OnOk result (found.new.items ≡ found.old.items
        ++ written_nodes (super_targets (code_of code.now).program binding.now)) }
{
    match binding {
        Binding::Class(superclass) => {
            if superclass.number() < FRAMEWORK_CLASS_COUNT {
                return Ok(());
            }
            note_class_constructor(found, code, *superclass)
        }
        _ => Ok(()),
    }
}

/// The node of the class in which a body stands.
#[tactic(auto, unfolding(scj_model::specs::Code::code_of))]
fn class_node_of(code: &Code<'_>, body: NodeId) -> Option<NodeId>
    ensures { result ≡ option_and_then (class_node (code_of code.now).program)
        (class_of_body (code_of code.now).program body) }
{
    let layout = code.layout();
    match layout.class_of_body(body) {
        Some(class) => layout.class_node(class),
        None => None,
    }
}

/// Notes what a super part that isn't written runs.
#[tactic(auto, unfolding(crate::specs::Targets::unwritten_super_targets, crate::specs::Edges::written_nodes))]
fn note_unwritten(found: &mut Vec<NodeId>, code: &Code<'_>, body: NodeId) -> Result<(), Memory>
    ensures { OnOk result (found.new.items ≡ found.old.items
        ++ written_nodes (unwritten_super_targets (code_of code.now) body)) }
{
    match class_node_of(code, body) {
        Some(node) => note_super(found, code, &code.binding(node)),
        None => Ok(()),
    }
}

/// Notes what is run in the memory that a call enters.
#[tactic(auto, using(crate::proofs::SiteLemmas::runs_are), unfolding(crate::specs::Targets::memory_targets, crate::specs::Targets::entered_targets, crate::specs::Edges::written_nodes))]
fn note_memory(found: &mut Vec<NodeId>, code: &Code<'_>, binding: &Binding) -> Result<(), Memory>
    ensures { OnOk result (found.new.items ≡ found.old.items
        ++ written_nodes (memory_targets (code_of code.now).program binding.now)) }
{
    match binding {
        Binding::Builtin(target) => {
            if target.id == MANAGED_MEMORY_ENTER_PRIVATE_MEMORY
                || target.id == MANAGED_MEMORY_EXECUTE_IN_AREA_OF
            {
                return note_under(found, code, target.on, &Asked::Run);
            }
            Ok(())
        }
        _ => Ok(()),
    }
}

/// Notes what a node runs in its own area.
#[tactic(auto, unfolding(crate::specs::Targets::targets_here, crate::specs::Edges::written_nodes))]
fn note_here(
    found: &mut Vec<NodeId>,
    code: &Code<'_>,
    id: NodeId,
    node: &Node,
) -> Result<(), Memory>
    ensures { OnOk result (found.new.items ≡ found.old.items
        ++ written_nodes (targets_here (code_of code.now) id node.now)) }
{
    match node {
        Node::New { .. } => note_constructor(found, code, &code.binding(id)),
        Node::Call { .. } => note_call(found, code, &code.binding(id)),
        Node::SuperCall { .. } => note_super(found, code, &code.binding(id)),
        Node::Constructor {
            super_call: None,
            ..
        } => note_unwritten(found, code, id),
        Node::Class { .. } => note_unwritten(found, code, id),
        _ => Ok(()),
    }
}

/// Notes what a node runs in the area that it enters.
#[tactic(auto, unfolding(crate::specs::Targets::targets_entered, crate::specs::Edges::written_nodes))]
fn note_entered(
    found: &mut Vec<NodeId>,
    code: &Code<'_>,
    id: NodeId,
    node: &Node,
) -> Result<(), Memory>
    ensures { OnOk result (found.new.items ≡ found.old.items
        ++ written_nodes (targets_entered (code_of code.now) id node.now)) }
{
    match node {
        Node::Call { .. } => note_memory(found, code, &code.binding(id)),
        _ => Ok(()),
    }
}

/// The bodies that a node runs in its own area.
#[tactic(auto, unfolding(crate::specs::Edges::runs_here))]
fn runs_here(alloc: Global, code: &Code<'_>, id: NodeId) -> Result<Vec<NodeId>, Memory>
    ensures { IfOk result (λ nodes. nodes.items ≡ runs_here (code_of code.now) id) }
{
    let mut found = Vec::new(alloc);
    if let Some(node) = code.node(id) {
        note_here(&mut found, code, id, node)?;
    }
    Ok(found)
}

/// The bodies that a node runs in the area that it enters.
#[tactic(auto, unfolding(crate::specs::Edges::runs_entered))]
fn runs_entered(alloc: Global, code: &Code<'_>, id: NodeId) -> Result<Vec<NodeId>, Memory>
    ensures { IfOk result (λ nodes. nodes.items ≡ runs_entered (code_of code.now) id) }
{
    let mut found = Vec::new(alloc);
    if let Some(node) = code.node(id) {
        note_entered(&mut found, code, id, node)?;
    }
    Ok(found)
}

/// What each node runs in its own area.
#[tactic(auto, using(crate::proofs::Tables::table_none, crate::proofs::Tables::table_more))]
pub fn all_run_here(alloc: Global, code: &Code<'_>) -> Result<Vec<Vec<NodeId>>, Memory>
    ensures { IfOk result (λ table. IsTable (runs_here (code_of code.now)) (count (code_of code.now)) table.items) }
{
    let mut table = Vec::new(alloc);
    for id in 0..code.count() {
        table.push(runs_here(alloc, code, NodeId::at(id as u32))?)?;
    }
    Ok(table)
}

/// What each node runs in the area that it enters.
#[tactic(auto, using(crate::proofs::Tables::table_none, crate::proofs::Tables::table_more))]
pub fn all_run_entered(alloc: Global, code: &Code<'_>) -> Result<Vec<Vec<NodeId>>, Memory>
    ensures { IfOk result (λ table. IsTable (runs_entered (code_of code.now)) (count (code_of code.now))
        table.items) }
{
    let mut table = Vec::new(alloc);
    for id in 0..code.count() {
        table.push(runs_entered(alloc, code, NodeId::at(id as u32))?)?;
    }
    Ok(table)
}
