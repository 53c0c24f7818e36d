//! The rules on scopes, class after class.

ghost use Rattle.std.specs.Prelude.{◌≡◌, ◌++◌, OnOk, IfOk, is_some};
ghost use Rattle.std.specs.List.{list_any};
ghost use Rattle.scj_rules.specs.Words.{found_at};
ghost use Rattle.scj_rules.specs.Classes.{superclasses};
ghost use Rattle.scj_rules.specs.Contexts.{declarations_of};
ghost use Rattle.scj_rules.specs.Phases.{BreaksScopeRules, at_class, scope_phase};
ghost use Rattle.scj_rules.specs.Report.{IsReport};
ghost use Rattle.scj_rules.specs.ScopeRules.{definition_breaks, definition_in, has_wrong_parent, is_defined_already, is_handler, is_wrong_class, lacks_scope, lies_in_parent, makes_scope, misfits_parent, needs_scope, s1, s2, s3, s4, s5, s6, scope_breaks, scope_written_on_chain, user_class_in};

use crate::names::{definition_in, is_reserved, modifiers_in, position_in};
use crate::scopes::{is_cyclic, scope_written_in};
use class_rows::ClassTable;
use class_rows::chains::Chain;
use program_facts::ProgramFacts;
use scj_base::ids::{APERIODIC_EVENT_HANDLER, MISSION, PERIODIC_EVENT_HANDLER, RUNNABLE};
use scj_base::{ClassId, Found, Memory, Rule, ScopeId};
use scj_rules::{Definition, Written, put_in_order, report_if};
use std::alloc::Global;

/// Whether a class stands under one of the framework's classes of handlers.
fn is_handler(classes: &ClassTable, class: ClassId) -> bool
    ensures { result ≡ is_handler (declarations_of classes.now) class }
{
    classes.is_under(class, PERIODIC_EVENT_HANDLER)
        || classes.is_under(class, APERIODIC_EVENT_HANDLER)
}

/// Whether a class of the chain writes a definition.
fn any_defines(facts: &ProgramFacts, chain: Chain<'_>) -> bool
    ensures { result ≡ list_any (λ class. is_some (definition_in (declarations_of facts.now) class)) chain.entry }
{
    let mut rest = chain;
    while let Some(class) = rest.next() {
        if definition_in(facts.classes(), class).is_some() {
            return true;
        }
    }
    false
}

/// Whether a definition's name is reserved, or another class makes its scope.
fn is_defined_already(facts: &ProgramFacts, class: ClassId, definition: &Definition) -> bool
    ensures { result ≡ is_defined_already (declarations_of facts.now) class definition.now }
{
    if is_reserved(&definition.scope.name) {
        return true;
    }
    match facts.scope_number(&definition.scope.name) {
        Some(scope) => scope.number() != class.number(),
        None => false,
    }
}

/// Whether a definition makes the scope of its name.
fn makes_scope(facts: &ProgramFacts, class: ClassId, definition: &Definition) -> bool
    ensures { result ≡ makes_scope (declarations_of facts.now) class definition.now }
{
    match facts.scope_number(&definition.scope.name) {
        Some(scope) => scope.number() == class.number(),
        None => false,
    }
}

/// Whether a class must define no scope.
fn is_wrong_class(facts: &ProgramFacts, class: ClassId) -> bool
    ensures { result ≡ is_wrong_class (declarations_of facts.now) class }
{
    let classes = facts.classes();
    let may_define = classes.is_under(class, MISSION)
        || (is_handler(classes, class) || classes.is_sub(class, RUNNABLE));
    !may_define || any_defines(facts, classes.classes_above(class))
}

/// The scope that a class of the chain writes for its instances, the first that does.
#[tactic(auto, using(class_rows::proofs::WalkLemmas::along_front, class_rows::proofs::WalkLemmas::along_end), unfolding(scj_rules::specs::ScopeRules::scope_written_on_chain))]
fn scope_written_on_chain(facts: &ProgramFacts, class: ClassId) -> Option<Written>
    ensures { result ≡ scope_written_on_chain (declarations_of facts.now) class }
{
    let mut chain = facts.classes().superclasses(class);
    while let Some(at) = chain.next() {
        if let Some(written) = scope_written_in(facts, at) {
            return Some(written);
        }
    }
    None
}

/// Whether the instances of a class lie in the parent of its scope.
fn lies_in_parent(facts: &ProgramFacts, class: ClassId, definition: &Definition) -> bool
    ensures { result ≡ lies_in_parent (declarations_of facts.now) class definition.now }
{
    match scope_written_on_chain(facts, class) {
        Some(written) => written.name == definition.parent.name,
        None => false,
    }
}

/// Whether a parent doesn't suit the class that names it.
#[tactic(auto, unfolding(scj_rules::specs::ScopeRules::misfits_parent))]
fn misfits_parent(
    facts: &ProgramFacts,
    class: ClassId,
    definition: &Definition,
    parent: ScopeId,
) -> bool
    ensures { result ≡ misfits_parent (declarations_of facts.now) class definition.now parent }
{
    let classes = facts.classes();
    if classes.is_under(class, MISSION) {
        return parent != ScopeId::IMMORTAL;
    }
    if is_handler(classes, class) {
        return !(classes.is_under(ClassId::at(parent.number()), MISSION)
            && lies_in_parent(facts, class, definition));
    }
    classes.is_sub(class, RUNNABLE) && parent == ScopeId::IMMORTAL
}

/// Whether the parent is a scope, and doesn't suit the class.
fn has_wrong_parent(facts: &ProgramFacts, class: ClassId, definition: &Definition) -> bool
    ensures { result ≡ has_wrong_parent (declarations_of facts.now) class definition.now }
{
    match facts.scope_number(&definition.parent.name) {
        Some(parent) => misfits_parent(facts, class, definition, parent),
        None => false,
    }
}

/// Notes what is broken at the definition of a class.
#[tactic(auto, unfolding(scj_rules::specs::ScopeRules::s1, scj_rules::specs::ScopeRules::s2, scj_rules::specs::ScopeRules::s3, scj_rules::specs::ScopeRules::s4, scj_rules::specs::ScopeRules::s5))]
fn note_definition(
    found: &mut Vec<Found>,
    facts: &ProgramFacts,
    class: ClassId,
    definition: &Definition,
) -> Result<(), Memory>
    ensures { let p = declarations_of facts.now in
        OnOk result (found.new.items ≡ found.old.items ++ (s1 p class definition.now ++ s2 p class definition.now
        ++ s3 p class definition.now ++ s4 p class definition.now ++ s5 p class definition.now)) }
{
    let scope = definition.scope.position;
    let parent = definition.parent.position;
    let is_taken = is_defined_already(facts, class, definition);
    let is_unknown = facts.scope_number(&definition.parent.name).is_none();
    let is_cycle = makes_scope(facts, class, definition) && is_cyclic(facts, class);
    let misfits = has_wrong_parent(facts, class, definition);
    report_if(found, is_taken, Rule::S1, scope)?;
    report_if(found, is_unknown, Rule::S2, parent)?;
    report_if(found, is_cycle, Rule::S3, parent)?;
    report_if(found, is_wrong_class(facts, class), Rule::S4, scope)?;
    report_if(found, misfits, Rule::S5, parent)?;
    Ok(())
}

/// Notes what is broken at the definition that a class writes.
#[tactic(auto, unfolding(scj_rules::specs::ScopeRules::definition_breaks))]
fn note_written(found: &mut Vec<Found>, facts: &ProgramFacts, class: ClassId) -> Result<(), Memory>
    ensures { OnOk result (found.new.items ≡ found.old.items ++ definition_breaks (declarations_of facts.now) class) }
{
    match definition_in(facts.classes(), class) {
        Some(definition) => note_definition(found, facts, class, &definition),
        None => Ok(()),
    }
}

/// Whether a class that isn't abstract has a scope of its own.
fn needs_scope(classes: &ClassTable, class: ClassId) -> bool
    ensures { result ≡ needs_scope (declarations_of classes.now) class }
{
    classes.is_under(class, MISSION) || is_handler(classes, class)
}

/// Whether a class of the chain of a class writes a definition.
fn chain_defines(facts: &ProgramFacts, class: ClassId) -> bool
    ensures { let p = declarations_of facts.now in
        result ≡ list_any (λ class. is_some (definition_in p class)) (superclasses p.classes class) }
{
    any_defines(facts, facts.classes().superclasses(class))
}

/// Whether no class of the chain defines the scope that a class needs.
fn lacks_scope(facts: &ProgramFacts, class: ClassId, is_abstract: bool) -> bool
    ensures { result ≡ lacks_scope (declarations_of facts.now) class is_abstract }
{
    !is_abstract && (needs_scope(facts.classes(), class) && !chain_defines(facts, class))
}

/// Notes S6 at a class, if it is a user class.
#[tactic(auto, using(crate::proofs::PhaseLemmas::missing_at), unfolding(scj_rules::specs::ScopeRules::s6))]
fn note_missing(found: &mut Vec<Found>, facts: &ProgramFacts, class: ClassId) -> Result<(), Memory>
    ensures { let p = declarations_of facts.now in
        OnOk result (found.new.items ≡ found.old.items ++ found_at (user_class_in p.classes class) (s6 p class)) }
{
    let classes = facts.classes();
    match (modifiers_in(classes, class), position_in(classes, class)) {
        (Some(modifiers), Some(position)) => {
            let test = lacks_scope(facts, class, modifiers.is_abstract);
            report_if(found, test, Rule::S6, position)
        }
        _ => Ok(()),
    }
}

/// Notes what is broken at a class.
fn note_class(found: &mut Vec<Found>, facts: &ProgramFacts, class: ClassId) -> Result<(), Memory>
    ensures { let p = declarations_of facts.now in
        OnOk result (found.new.items ≡ found.old.items ++ at_class p (λ class row c. scope_breaks p class c) class) }
{
    note_written(found, facts, class)?;
    note_missing(found, facts, class)?;
    Ok(())
}

/// What is broken at the classes.
#[tactic(auto, using(crate::proofs::PhaseLemmas::classes_joined), unfolding(scj_tree::specs::Recursion::joined_below, scj_rules::specs::Phases::scope_phase))]
fn broken_classes(alloc: Global, facts: &ProgramFacts) -> Result<Vec<Found>, Memory>
    ensures { IfOk result (λ found. found.items ≡ scope_phase (declarations_of facts.now)) }
{
    let mut found = Vec::new(alloc);
    for number in 0..facts.class_count() {
        note_class(&mut found, facts, ClassId::at(number as u32))?;
    }
    Ok(found)
}

/// What is broken at the classes, in the order of a report.
pub fn report_of(alloc: Global, facts: &ProgramFacts) -> Result<Vec<Found>, Memory>
    ensures { IfOk result (λ found. IsReport (BreaksScopeRules facts.now) found.items) }
{
    let mut found = broken_classes(alloc, facts)?;
    put_in_order(&mut found);
    Ok(found)
}
