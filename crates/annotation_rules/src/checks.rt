//! All rules on annotations, at a node.

ghost use Rattle.std.specs.Prelude.{◌≡◌, ◌++◌, OnOk, option_map};
ghost use Rattle.scj_rules.specs.Words.{found_at};
ghost use Rattle.scj_base.specs.declared.findings.Rule.TheVariants.{A1, A9};
ghost use Rattle.scj_rules.specs.Views.{field_at, method_at};
ghost use Rattle.scj_rules.specs.Contexts.{declarations_of, context, in_class};
ghost use Rattle.scj_rules.specs.StaticScopes.{is_unknown_scope, contradicts, scoped_field, scoped_result};
ghost use Rattle.scj_rules.specs.AnnotationRules.{broken_value, a3_to_a5_of, a6_of, a7_and_a8_of, annotation_breaks};

use crate::overrides::note_method;
use crate::things::{note_class, note_field, note_variable};
use node_views::field_at;
use program_facts::ProgramFacts;
use scj_base::{Found, Memory, NodeId};
use scj_tree::Node;
use static_scopes::method_at;

/// Notes what is broken at the field that a node declares.
#[tactic(auto, unfolding(scj_rules::specs::Contexts::declarations_of))]
fn note_field_at(found: &mut Vec<Found>, facts: &ProgramFacts, id: NodeId) -> Result<(), Memory>
    ensures { let p = declarations_of facts.now in
        let thing = in_class p id (λ class. option_map (scoped_field p class) (field_at p.nodes id)) in
        OnOk result (found.new.items ≡ found.old.items
        ++ (found_at thing (λ t. broken_value t.scope (is_unknown_scope p t) A1)
        ++ (found_at (context p id).class (λ class. found_at (field_at p.nodes id) (a3_to_a5_of p class))
        ++ found_at thing (λ t. broken_value t.scope (contradicts p t) A9)))) }
{
    let context = facts.context(id);
    match (context.class, &field_at(facts.program(), id)) {
        (Some(class), Some(field)) => note_field(found, facts, class, field),
        _ => Ok(()),
    }
}

/// Notes what is broken at the method that a node declares.
#[tactic(auto, unfolding(scj_rules::specs::Contexts::declarations_of))]
fn note_method_at(found: &mut Vec<Found>, facts: &ProgramFacts, id: NodeId) -> Result<(), Memory>
    ensures { let p = declarations_of facts.now in
        let thing = in_class p id (λ class. option_map (scoped_result p class) (method_at p.nodes id)) in
        OnOk result (found.new.items ≡ found.old.items
        ++ (found_at thing (λ t. broken_value t.scope (is_unknown_scope p t) A1)
        ++ (found_at (context p id).class
        (λ class. found_at (method_at p.nodes id) (λ m. a6_of p class m ++ a7_and_a8_of p class m))
        ++ found_at thing (λ t. broken_value t.scope (contradicts p t) A9)))) }
{
    let context = facts.context(id);
    let Some(class) = context.class else {
        return Ok(());
    };
    match &method_at(facts.program(), class, id) {
        Some(method) => note_method(found, facts, method),
        None => Ok(()),
    }
}

/// Notes what is broken at a node.
#[tactic(auto, unfolding(scj_rules::specs::AnnotationRules::annotation_breaks, scj_rules::specs::AnnotationRules::a1, scj_rules::specs::AnnotationRules::a2, scj_rules::specs::AnnotationRules::a3_to_a5, scj_rules::specs::AnnotationRules::a6_to_a8, scj_rules::specs::AnnotationRules::a9, scj_rules::specs::AnnotationRules::scoped_declaration_at, scj_rules::specs::Contexts::declarations_of))]
pub fn note_annotation(
    found: &mut Vec<Found>,
    facts: &ProgramFacts,
    id: NodeId,
    node: &Node,
) -> Result<(), Memory>
    ensures { OnOk result (found.new.items ≡ found.old.items
        ++ annotation_breaks (declarations_of facts.now) id node.now) }
{
    match node {
        Node::Parameter { .. } | Node::Local { .. } | Node::LocalWithValue { .. } => {
            note_variable(found, facts, id)
        }
        Node::Field { .. } => note_field_at(found, facts, id),
        Node::Method { .. } => note_method_at(found, facts, id),
        Node::Class { position, name, .. } => match facts.class_of(name.get()) {
            Some(class) => note_class(found, facts, class, *position),
            None => Ok(()),
        },
        _ => Ok(()),
    }
}
