//! A1 to A5 and A9: the scopes of classes, variables and fields, and the values that are written there.

ghost use Rattle.std.specs.Prelude.{◌≡◌, ◌++◌, OnOk};
ghost use Rattle.scj_base.specs.declared.findings.Rule.TheVariants.{A1, A2, A9};
ghost use Rattle.scj_rules.specs.Words.{broken, found_at};
ghost use Rattle.scj_rules.specs.Contexts.{declarations_of};
ghost use Rattle.scj_rules.specs.ScopeRules.{scope_written_in};
ghost use Rattle.scj_rules.specs.StaticScopes.{is_unknown_scope, contradicts, scoped_field};
ghost use Rattle.scj_rules.specs.AnnotationRules.{a1_of_class, has_other_scope, a2_position, broken_value, field_rule, a3_to_a5_of, scoped_variable_at};

use program_facts::ProgramFacts;
use scj_base::{ClassId, Found, Memory, NodeId, Position, Rule};
use scj_rules::{ClassScope, Declared, ScopedDeclaration, report_if};
use scj_tree::Node;
use scope_tree::scopes::{
    class_scope, differs_from_above, has_unknown_scope, is_implied_immortal, scope_written_in,
};
use static_scopes::{
    contradicts, declaration_scope, is_unknown_scope, misfits, scoped_field, scoped_variable_at,
};

/// Notes A1 at the value that is written at a thing, if there is one.
pub fn note_unknown(
    found: &mut Vec<Found>,
    facts: &ProgramFacts,
    thing: &ScopedDeclaration,
) -> Result<(), Memory>
    ensures { let p = declarations_of facts.now in
        OnOk result (found.new.items ≡ found.old.items
        ++ broken_value thing.now.scope (is_unknown_scope p thing.now) A1) }
{
    match &thing.scope {
        Some(written) => {
            let test = is_unknown_scope(facts, thing, written);
            report_if(found, test, Rule::A1, written.position)
        }
        None => Ok(()),
    }
}

/// Notes A9 at the value that is written at a thing, if there is one.
pub fn note_contradiction(
    found: &mut Vec<Found>,
    facts: &ProgramFacts,
    thing: &ScopedDeclaration,
) -> Result<(), Memory>
    ensures { let p = declarations_of facts.now in
        OnOk result (found.new.items ≡ found.old.items ++ broken_value thing.now.scope (contradicts p thing.now) A9) }
{
    match &thing.scope {
        Some(written) => {
            let test = contradicts(facts, thing, written);
            report_if(found, test, Rule::A9, written.position)
        }
        None => Ok(()),
    }
}

/// Notes A1 and A9 at the parameter or local that a node declares.
fn note_flagged(found: &mut Vec<Found>, facts: &ProgramFacts, id: NodeId) -> Result<(), Memory>
    ensures { let p = declarations_of facts.now in let variable = scoped_variable_at p id in
        OnOk result (found.new.items ≡ found.old.items
        ++ (found_at variable (λ t. broken_value t.scope (is_unknown_scope p t) A1)
        ++ found_at variable (λ t. broken_value t.scope (contradicts p t) A9))) }
{
    match &scoped_variable_at(facts, id) {
        Some(thing) => {
            note_unknown(found, facts, thing)?;
            note_contradiction(found, facts, thing)?;
            Ok(())
        }
        None => Ok(()),
    }
}

/// Notes A1 and A9 at the parameter or local that a node declares. Most have nothing written before them.
#[tactic(auto, unfolding(scj_rules::specs::AnnotationRules::scoped_variable_at, scj_rules::specs::Views::variable_of, scj_rules::specs::Contexts::declarations_of))]
pub fn note_variable(found: &mut Vec<Found>, facts: &ProgramFacts, id: NodeId) -> Result<(), Memory>
    ensures { let p = declarations_of facts.now in let variable = scoped_variable_at p id in
        OnOk result (found.new.items ≡ found.old.items
        ++ (found_at variable (λ t. broken_value t.scope (is_unknown_scope p t) A1)
        ++ found_at variable (λ t. broken_value t.scope (contradicts p t) A9))) }
{
    let context = facts.context(id);
    let (Some(_), Some(_)) = (context.class, context.member) else {
        return Ok(());
    };
    if let Some(
        Node::Parameter { flags: None, .. }
        | Node::Local { flags: None, .. }
        | Node::LocalWithValue { flags: None, .. },
    ) = facts.program().get(id)
    {
        return Ok(());
    }
    note_flagged(found, facts, id)
}

/// Notes A1 and A2 at a class that is named at a place.
#[tactic(auto, unfolding(scj_rules::specs::AnnotationRules::a2_position))]
pub fn note_class(
    found: &mut Vec<Found>,
    facts: &ProgramFacts,
    class: ClassId,
    position: Position,
) -> Result<(), Memory>
    ensures { let p = declarations_of facts.now in
        OnOk result (found.new.items ≡ found.old.items
        ++ (a1_of_class p class ++ broken (has_other_scope p class) A2 (a2_position position (scope_written_in p class)))) }
{
    let written = scope_written_in(facts, class);
    let above = match facts.classes().superclass(class) {
        Some(above) => class_scope(facts, above),
        None => ClassScope::Unannotated,
    };
    let implied = is_implied_immortal(facts, class);
    let test = differs_from_above(facts, &written, &above, implied);
    let Some(value) = &written else {
        return report_if(found, test, Rule::A2, position);
    };
    let is_unknown = has_unknown_scope(facts, &written);
    report_if(found, is_unknown, Rule::A1, value.position)?;
    report_if(found, test, Rule::A2, value.position)?;
    Ok(())
}

/// The rule on the scope of a field.
#[tactic(auto, unfolding(scj_rules::specs::AnnotationRules::field_rule))]
fn field_rule(class: &ClassScope, is_static: bool) -> Rule
    ensures { result ≡ field_rule class.now is_static }
{
    if is_static {
        return Rule::A5;
    }
    match class {
        ClassScope::Unannotated => Rule::A4,
        _ => Rule::A3,
    }
}

/// Notes A1, A3 to A5 and A9 at a field of a class.
#[tactic(auto, unfolding(scj_rules::specs::StaticScopes::misfits_field))]
pub fn note_field(
    found: &mut Vec<Found>,
    facts: &ProgramFacts,
    class: ClassId,
    field: &Declared,
) -> Result<(), Memory>
    ensures { let p = declarations_of facts.now in let t = scoped_field p class field.now in
        OnOk result (found.new.items ≡ found.old.items
        ++ (broken_value t.scope (is_unknown_scope p t) A1 ++ (a3_to_a5_of p class field.now
        ++ broken_value t.scope (contradicts p t) A9))) }
{
    let thing = scoped_field(facts, class, field);
    note_unknown(found, facts, &thing)?;
    let scope = declaration_scope(facts, &thing);
    let test = misfits(facts, class, thing.is_static, &scope);
    let rule = field_rule(&class_scope(facts, class), thing.is_static);
    report_if(found, test, rule, field.position)?;
    note_contradiction(found, facts, &thing)?;
    Ok(())
}
