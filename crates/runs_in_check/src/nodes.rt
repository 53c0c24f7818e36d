//! What breaks the rules on uses at a node that is no call: E1, E3 to E6, E9 and E10.

ghost use Rattle.std.specs.Prelude.{◌≡◌, ◌++◌, ◌&&◌, not, IfOk, OnOk, option_and_then};
ghost use Rattle.scj_base.specs.declared.findings.Rule.TheVariants.{E1, E9};
ghost use Rattle.scj_rules.specs.Definitions.{read};
ghost use Rattle.scj_rules.specs.Words.{broken, found_at, holds};
ghost use Rattle.scj_rules.specs.Classes.{class_number};
ghost use Rattle.scj_rules.specs.Contexts.{declarations_of};
ghost use Rattle.scj_rules.specs.TypeRules.{written_type, superclass_at};
ghost use Rattle.scj_rules.specs.UseRules.{this_at, scope_in_class, scope_of_new, misfits_new, lies_elsewhere, e3_of_constructor, misfit_scope, variable_scope_at, target_rule, result_scope_at, misfits_cast, lies_outside, isnt_around_current, misfits_element};
ghost use Rattle.scj_rules.specs.Guards.{is_guarded_store};
ghost use Rattle.program_facts.specs.Reported.{declared, types, scopes};
ghost use Rattle.runs_in_check.specs.Guards.{AreGuards};

use crate::calls::{Callee, note_arguments};
use crate::guards::Guards;
use crate::scopes::{is_other, misfit_scope, scope_in_class, scope_of_new};
use crate::stores::is_guarded_store;
use program_facts::{At, NameMeaning, ProgramFacts};
use scj_base::{ClassId, Found, Memory, Name, NodeId, Position, Rule, ScopeId};
use scj_rules::{ClassScope, Scope, Ty, report_if};
use scj_tree::Node;
use scope_tree::scopes::{class_scope, is_outer};
use static_scopes::{current_at, method_at, result_scope, this_at, variable_scope};
use type_rules::names;

/// Whether the objects of a class lie elsewhere than in the current scope.
fn lies_elsewhere(facts: &ProgramFacts<'_>, id: NodeId, class: ClassId) -> bool
    ensures { result ≡ lies_elsewhere (declarations_of facts.now) id class }
{
    match class_scope(facts, class) {
        ClassScope::Annotated(scope) => is_other(&current_at(facts, id), &Scope::In(scope)),
        ClassScope::Unannotated | ClassScope::Missing => false,
    }
}

/// Notes E1 and E3 at a new object, and tells where it lies.
#[tactic(auto, unfolding(crate::specs::Phase::e3_of))]
pub fn note_new(
    found: &mut Vec<Found>,
    at: &At<'_>,
    position: Position,
    name: &Name,
    arguments: &[NodeId],
) -> Result<Option<Scope>, Memory>
    ensures scope { let p = declared at.now in
        IfOk result (λ scope. scope ≡ option_and_then (scope_of_new p at.now.id) (class_number p.names name.now)) }
    ensures found { let p = declared at.now in OnOk result (found.new.items ≡ found.old.items
        ++ (broken (misfits_new p at.now.id name.now) E1 position ++ found_at (class_number p.names name.now)
        (λ class. e3_of_constructor p (scopes at.now) (scope_of_new p at.now.id class) arguments.now class))) }
{
    let facts = at.facts;
    let Some(class) = facts.class_of(name) else {
        return Ok(None);
    };
    report_if(
        found,
        lies_elsewhere(facts, at.id, class),
        Rule::E1,
        position,
    )?;
    let callee = Callee::Constructor(class, scope_of_new(facts, at.id, class));
    note_arguments(found, at, &callee, arguments)?;
    Ok(scope_of_new(facts, at.id, class))
}

/// Notes E3 at a call of the superclass's constructor.
#[tactic(auto, unfolding(crate::specs::Phase::e3_of))]
pub fn note_super_call(found: &mut Vec<Found>, at: &At, arguments: &[NodeId]) -> Result<(), Memory>
    ensures { let p = declared at.now in OnOk result (found.new.items ≡ found.old.items
        ++ found_at (superclass_at p at.now.id)
        (e3_of_constructor p (scopes at.now) (this_at p at.now.id) arguments.now)) }
{
    let facts = at.facts;
    let Some(class) = facts.context(at.id).class else {
        return Ok(());
    };
    match facts.classes().superclass(class) {
        Some(superclass) => {
            let callee = Callee::Constructor(superclass, this_at(facts, at.id));
            note_arguments(found, at, &callee, arguments)
        }
        None => Ok(()),
    }
}

/// The rule on an assignment to a node, if there is one of this number.
#[tactic(auto, unfolding(scj_rules::specs::UseRules::target_rule, scj_rules::specs::UseRules::target_of_meaning, program_facts::specs::Meanings::meant, scj_rules::specs::Contexts::declarations_of))]
fn target_rule(facts: &ProgramFacts<'_>, target: NodeId) -> Option<Rule>
    ensures { let p = declarations_of facts.now in result ≡ read p.nodes (target_rule p target) target }
{
    match facts.program().get(target)? {
        Node::SimpleName { name, .. } => match names::meaning(facts, target, name.get()) {
            NameMeaning::Variable(_) => Some(Rule::E4),
            _ => Some(Rule::E5),
        },
        _ => Some(Rule::E5),
    }
}

/// Whether a value's scope doesn't fit that of what it is assigned to. Most values have none.
fn misfits_target(at: &At<'_>, value: NodeId, target: NodeId) -> bool
    ensures { result ≡ misfit_scope (scopes at.now value) (scopes at.now target) }
{
    let value = at.scope_of(value);
    value.is_some() && misfit_scope(&value, &at.scope_of(target))
}

/// Whether a value's scope doesn't fit that of what it is assigned to, and no guard allows the store.
fn misfits_assign(at: &At<'_>, guards: &Guards, target: NodeId, value: NodeId) -> bool
    requires { AreGuards (declared at.now) (types at.now) guards.now }
    ensures { result ≡ (misfit_scope (scopes at.now value) (scopes at.now target)
        && not (is_guarded_store (declared at.now) (types at.now) at.now.id target value)) }
{
    misfits_target(at, value, target) && !is_guarded_store(at, guards, target, value)
}

/// Notes E4 or E5 at an assignment, unless it is a store that a guard allows.
#[tactic(auto, using(crate::proofs::CallLemmas::right_assign))]
pub fn note_assign(
    found: &mut Vec<Found>,
    at: &At<'_>,
    guards: &Guards,
    position: Position,
    target: NodeId,
    value: NodeId,
) -> Result<(), Memory>
    requires { AreGuards (declared at.now) (types at.now) guards.now }
    ensures { let p = declared at.now in OnOk result (found.new.items ≡ found.old.items
        ++ found_at (read p.nodes (target_rule p target) target)
        (λ rule. broken (misfit_scope (scopes at.now value) (scopes at.now target)
        && not (is_guarded_store p (types at.now) at.now.id target value)) rule position)) }
{
    if !misfits_assign(at, guards, target, value) {
        return Ok(());
    }
    match target_rule(at.facts, target) {
        Some(rule) => report_if(found, true, rule, position),
        None => Ok(()),
    }
}

/// Whether the value's scope of the local that is declared here doesn't fit the local's.
pub fn misfits_local(at: &At<'_>, value: NodeId) -> bool
    ensures { result ≡ misfit_scope (scopes at.now value) (variable_scope_at (declared at.now) at.now.id) }
{
    let value = at.scope_of(value);
    value.is_some() && misfit_scope(&value, &variable_scope(at.facts, at.id))
}

/// The scope of the result of the method in which a node stands.
#[tactic(auto, unfolding(scj_rules::specs::UseRules::result_scope_at, scj_rules::specs::Contexts::declarations_of))]
fn result_scope_at(facts: &ProgramFacts<'_>, id: NodeId) -> Option<Scope>
    ensures { result ≡ result_scope_at (declarations_of facts.now) id }
{
    let context = facts.context(id);
    let class = context.class?;
    match &method_at(facts.program(), class, context.member?) {
        Some(method) => result_scope(facts, method),
        None => None,
    }
}

/// Whether the scope of a value that is returned here doesn't fit the result's.
pub fn misfits_result(at: &At<'_>, value: NodeId) -> bool
    ensures { result ≡ misfit_scope (scopes at.now value) (result_scope_at (declared at.now) at.now.id) }
{
    let value = at.scope_of(value);
    value.is_some() && misfit_scope(&value, &result_scope_at(at.facts, at.id))
}

/// Whether a class is annotated with a scope that an operand's doesn't fit.
fn lies_outside(facts: &ProgramFacts<'_>, operand: &Option<Scope>, class: ClassId) -> bool
    ensures { result ≡ lies_outside (declarations_of facts.now) operand.now class }
{
    match class_scope(facts, class) {
        ClassScope::Annotated(scope) => misfit_scope(operand, &Some(Scope::In(scope))),
        ClassScope::Unannotated | ClassScope::Missing => false,
    }
}

/// Notes E9 at a cast, and tells the scope of its value.
pub fn note_cast(
    found: &mut Vec<Found>,
    at: &At<'_>,
    position: Position,
    name: &Name,
    operand: NodeId,
) -> Result<Option<Scope>, Memory>
    ensures scope { let p = declared at.now in IfOk result (λ scope. scope ≡ option_and_then
        (λ class. scope_in_class p class (scopes at.now operand)) (class_number p.names name.now)) }
    ensures found { OnOk result (found.new.items ≡ found.old.items
        ++ broken (misfits_cast (declared at.now) (scopes at.now operand) name.now) E9 position) }
{
    let facts = at.facts;
    let Some(class) = facts.class_of(name) else {
        return Ok(None);
    };
    let scope = at.scope_of(operand);
    report_if(
        found,
        lies_outside(facts, &scope, class),
        Rule::E9,
        position,
    )?;
    Ok(scope_in_class(facts, class, &scope))
}

/// Whether a scope is neither the current one, by name, nor lies outside it.
#[tactic(auto, unfolding(scj_rules::specs::UseRules::is_outer_of_current))]
fn isnt_around_current(facts: &ProgramFacts<'_>, id: NodeId, scope: ScopeId) -> bool
    ensures { result ≡ isnt_around_current (declarations_of facts.now) id scope }
{
    match &current_at(facts, id) {
        Some(Scope::In(current)) => !is_outer(facts, scope, *current),
        Some(_) => true,
        None => false,
    }
}

/// Whether no array of elements of the type that a node writes may be made here.
#[tactic(auto, unfolding(scj_rules::specs::UseRules::misfits_element))]
pub fn misfits_array(at: &At<'_>, element: NodeId) -> bool
    ensures { let p = declared at.now in result ≡ holds (written_type p element) (misfits_element p at.now.id) }
{
    let facts = at.facts;
    match &names::written_type(facts, element) {
        Some(Ty::Class(class)) => match class_scope(facts, *class) {
            ClassScope::Annotated(scope) => isnt_around_current(facts, at.id, scope),
            ClassScope::Unannotated | ClassScope::Missing => false,
        },
        _ => false,
    }
}
