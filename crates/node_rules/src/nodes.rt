//! What is broken at the nodes of a program.

ghost use Rattle.std.specs.Prelude.{◌≡◌, ◌++◌, OnOk};
ghost use Rattle.scj_rules.specs.Contexts.{contexts_in, declarations_of};
ghost use Rattle.node_contexts.specs.Numbers.{numbers_before};
ghost use Rattle.node_rules.specs.Findings.{FindSame};
ghost use Rattle.node_rules.specs.Nodes.{found_there, noted_at, nodes_broken, is_asked_kind};

use crate::limits::{note_k3, note_late};
use crate::misplaced::{
    is_misplaced_on_class, is_misplaced_on_constructor, is_misplaced_on_field,
    is_misplaced_on_method, is_misplaced_on_variable,
};
use crate::types::{names_no_class, names_no_mission, note_element, note_type};
use class_rows::ClassTable;
use node_contexts::Contexts;
use node_views::modifiers_at;
use scj_base::{Found, Memory, NodeId, Rule};
use scj_rules::report_if;
use scj_tree::{Node, NodeKind, row_or};

/// Whether the rules on single nodes ask nodes of this kind.
#[tactic(auto, unfolding(crate::specs::Nodes::is_asked_kind))]
fn is_asked_kind(kind: &Option<NodeKind>) -> bool
    ensures { result ≡ is_asked_kind kind.now }
{
    matches!(
        kind,
        Some(
            NodeKind::Class
                | NodeKind::Field
                | NodeKind::Method
                | NodeKind::Constructor
                | NodeKind::Parameter
                | NodeKind::Local
                | NodeKind::LocalWithValue
                | NodeKind::TypeArgument
                | NodeKind::New
                | NodeKind::Cast
                | NodeKind::NewArray
        )
    )
}

/// Notes what is broken at a node of a kind that is asked, but for the limit on variables.
#[tactic(auto, unfolding(crate::specs::Nodes::found_there, crate::specs::Nodes::parameter_limit, scj_rules::specs::ClassRules::node_breaks, scj_rules::specs::ClassRules::c9, scj_rules::specs::ClassRules::c11, scj_rules::specs::Contexts::declarations_of))]
fn note_asked(
    found: &mut Vec<Found>,
    classes: &ClassTable<'_>,
    contexts: &Contexts,
    id: NodeId,
) -> Result<(), Memory>
    requires { contexts.now ≡ contexts_in classes.now }
    ensures { OnOk result (found.new.items ≡ found.old.items ++ found_there (declarations_of classes.now) id) }
{
    let program = classes.program();
    let Some(node) = program.get(id) else {
        return Ok(());
    };
    match node {
        Node::Class {
            position,
            flags,
            ..
        } => {
            let is_wrong = flags.is_some() && is_misplaced_on_class(&modifiers_at(program, *flags));
            report_if(found, is_wrong, Rule::C11, *position)
        }
        Node::Field {
            position,
            flags,
            declared_type,
            ..
        } => {
            note_type(found, classes, *declared_type)?;
            let is_wrong = flags.is_some() && is_misplaced_on_field(&modifiers_at(program, *flags));
            report_if(found, is_wrong, Rule::C11, *position)
        }
        Node::Method {
            position,
            name,
            flags,
            result_type,
            parameters,
            ..
        } => {
            note_type(found, classes, *result_type)?;
            let is_wrong = is_misplaced_on_method(classes, contexts, id, name.get(), *flags);
            report_if(found, is_wrong, Rule::C11, *position)?;
            note_k3(found, program, *parameters)
        }
        Node::Constructor {
            position,
            name,
            flags,
            parameters,
            ..
        } => {
            let is_wrong = is_misplaced_on_constructor(classes, contexts, id, name.get(), *flags);
            report_if(found, is_wrong, Rule::C11, *position)?;
            note_k3(found, program, *parameters)
        }
        Node::Parameter {
            position,
            flags,
            declared_type,
            ..
        }
        | Node::Local {
            position,
            flags,
            declared_type,
            ..
        }
        | Node::LocalWithValue {
            name_position: position,
            flags,
            declared_type,
            ..
        } => {
            note_type(found, classes, *declared_type)?;
            let is_wrong = flags.is_some()
                && is_misplaced_on_variable(&modifiers_at(program, *flags));
            report_if(found, is_wrong, Rule::C11, *position)
        }
        Node::TypeArgument { position, name } => {
            let is_wrong = names_no_mission(classes, name.get());
            report_if(found, is_wrong, Rule::C9, *position)
        }
        Node::New {
            name_position,
            name,
            ..
        }
        | Node::Cast {
            name_position,
            name,
            ..
        } => {
            let is_wrong = names_no_class(classes, name.get());
            report_if(found, is_wrong, Rule::C9, *name_position)
        }
        Node::NewArray { element, .. } => note_element(found, classes, *element),
        _ => Ok(()),
    }
}

/// Notes what is broken at a node.
fn note_node(
    found: &mut Vec<Found>,
    classes: &ClassTable<'_>,
    contexts: &Contexts,
    numbers: &[u32],
    id: NodeId,
) -> Result<(), Memory>
    requires contexts { contexts.now ≡ contexts_in classes.now }
    requires numbers { numbers.now ≡ numbers_before (declarations_of classes.now) }
    ensures { OnOk result (found.new.items ≡ found.old.items ++ noted_at (declarations_of classes.now) id) }
{
    note_asked(found, classes, contexts, id)?;
    note_late(
        found,
        classes.program(),
        contexts,
        id,
        row_or(numbers, 0, id),
    )?;
    Ok(())
}

/// Notes what is broken at the nodes, by the numbers of their variables. Most nodes are of kinds that no rule asks, so
/// their kind is looked at first.
#[tactic(auto, using(crate::proofs::NodeLemmas::unasked, scj_tree::proofs::RecursionLemmas::joined_next, crate::proofs::NodeLemmas::all_noted), unfolding(scj_tree::specs::Recursion::joined_below, scj_rules::specs::Contexts::declarations_of))]
pub fn note_nodes(
    found: &mut Vec<Found>,
    classes: &ClassTable<'_>,
    contexts: &Contexts,
    numbers: &[u32],
) -> Result<(), Memory>
    requires contexts { contexts.now ≡ contexts_in classes.now }
    requires numbers { numbers.now ≡ numbers_before (declarations_of classes.now) }
    ensures { OnOk result (FindSame found.new.items (found.old.items ++ nodes_broken (declarations_of classes.now))) }
{
    let program = classes.program();
    for number in 0..program.len() {
        let id = NodeId::at(number as u32);
        if !is_asked_kind(&program.kind(id)) {
            continue;
        }
        note_node(found, classes, contexts, numbers, id)?;
    }
    Ok(())
}
