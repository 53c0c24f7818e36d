//! A6 to A8: whether a method has other scopes than the one that it overrides, and the scopes in which methods run; with
//! A1 and A9 at its result.

ghost use Rattle.std.specs.Prelude.{◌≡◌, ◌++◌, OnOk};
ghost use Rattle.method_rows.specs.Methods.{found_method};
ghost use Rattle.scj_base.specs.declared.findings.Rule.TheVariants.{A1, A9};
ghost use Rattle.scj_rules.specs.Contexts.{declarations_of};
ghost use Rattle.scj_rules.specs.StaticScopes.{is_unknown_scope, contradicts, scoped_result};
ghost use Rattle.scj_rules.specs.AnnotationRules.{seen_in, differ, parameters_differ, scopes_differ, overrides_scopes, broken_value, a6_of, a7_and_a8_of};
ghost use Rattle.annotation_rules.specs.Parts.{parameters_differ_at};

use crate::things::{note_contradiction, note_unknown};
use method_rows::{MethodRef, declared, parameter, parameter_count};
use program_facts::ProgramFacts;
use scj_base::{ClassId, Found, Memory, Rule};
use scj_builtins::FRAMEWORK_CLASS_COUNT;
use scj_rules::{Scope, report_if};
use static_scopes::{
    are_same_scope, has_other_runs_in, has_unknown_runs_in, is_plain, parameter_scope,
    result_scope, runs_in, scoped_in_member, this_in,
};

/// Whether a scope and the one above are there and aren't the same, as a class sees them.
#[tactic(auto, unfolding(scj_rules::specs::AnnotationRules::seen_in, scj_rules::specs::StaticScopes::are_same_scope))]
fn differ(facts: &ProgramFacts, class: ClassId, own: &Option<Scope>, above: &Option<Scope>) -> bool
    ensures { result ≡ differ own.now (seen_in (declarations_of facts.now) class above.now) }
{
    let above = match above {
        Some(Scope::This) => this_in(facts, class),
        _ => *above,
    };
    match (own, &above) {
        (Some(own), Some(above)) => !are_same_scope(own, above),
        _ => false,
    }
}

/// Whether the parameters of a number have other scopes, where both methods have one.
#[tactic(auto, unfolding(method_rows::specs::Methods::found_method))]
fn parameters_differ_at(
    facts: &ProgramFacts,
    method: &MethodRef,
    above: &MethodRef,
    i: usize,
) -> bool
    ensures { let f = found_method facts.now.nodes method.now in let g = found_method facts.now.nodes above.now in
        result ≡ parameters_differ_at (declarations_of facts.now) f g i }
{
    let program = facts.program();
    match (
        &parameter(program, method, i),
        &parameter(program, above, i),
    ) {
        (Some(own), Some(other)) => {
            let own = parameter_scope(facts, method, own);
            let other = parameter_scope(facts, above, other);
            differ(facts, method.on, &own, &other)
        }
        _ => false,
    }
}

/// Whether parameters have other scopes than those above.
#[tactic(auto, using(crate::proofs::ParameterLemmas::differs_found, crate::proofs::ParameterLemmas::none_differs))]
fn parameters_differ(facts: &ProgramFacts, method: &MethodRef, above: &MethodRef) -> bool
    ensures { let f = found_method facts.now.nodes method.now in let g = found_method facts.now.nodes above.now in
        result ≡ parameters_differ (declarations_of facts.now) f.on f.method g.on g.method f.method.parameters
        g.method.parameters }
{
    for i in 0..parameter_count(facts.program(), method) {
        if parameters_differ_at(facts, method, above, i) {
            return true;
        }
    }
    false
}

/// Whether a method has other scopes than the one above.
#[tactic(auto, unfolding(scj_rules::specs::AnnotationRules::scopes_differ, method_rows::specs::Methods::found_method))]
fn scopes_differ(facts: &ProgramFacts, method: &MethodRef, above: &MethodRef) -> bool
    ensures { let f = found_method facts.now.nodes method.now in let g = found_method facts.now.nodes above.now in
        result ≡ scopes_differ (declarations_of facts.now) f.on f.method g.on g.method }
{
    let class = method.on;
    let own = runs_in(facts, method);
    let other = runs_in(facts, above);
    let result = result_scope(facts, method);
    let result_above = result_scope(facts, above);
    differ(facts, class, &own, &other)
        || (parameters_differ(facts, method, above) || differ(facts, class, &result, &result_above))
}

/// Whether a method that isn't static has other scopes than the one of a user class that it overrides.
#[tactic(auto, unfolding(method_rows::specs::Methods::found_method))]
fn overrides_scopes(facts: &ProgramFacts, method: &MethodRef) -> bool
    ensures { let f = found_method facts.now.nodes method.now in
        result ≡ overrides_scopes (declarations_of facts.now) f.on f.method }
{
    let program = facts.program();
    if method_rows::is_static(program, method) {
        return false;
    }
    let name = method_rows::name(program, method);
    match &facts.classes().method_above(method.on, &name) {
        Some(above) => {
            above.on.number() >= FRAMEWORK_CLASS_COUNT && scopes_differ(facts, method, above)
        }
        None => false,
    }
}

/// Notes A6 at a method.
#[tactic(auto, unfolding(scj_rules::specs::AnnotationRules::a6_of, method_rows::specs::Methods::found_method))]
fn note_override(
    found: &mut Vec<Found>,
    facts: &ProgramFacts,
    method: &MethodRef,
) -> Result<(), Memory>
    ensures { let f = found_method facts.now.nodes method.now in
        OnOk result (found.new.items ≡ found.old.items ++ a6_of (declarations_of facts.now) f.on f.method) }
{
    if overrides_scopes(facts, method) {
        let declared = declared(facts.program(), method);
        report_if(found, true, Rule::A6, declared.position)?;
    }
    Ok(())
}

/// Notes A1, A6 to A8 and A9 at a method before which something may be written.
#[tactic(auto, unfolding(scj_rules::specs::AnnotationRules::a7_and_a8_of, method_rows::specs::Methods::found_method))]
fn note_written(
    found: &mut Vec<Found>,
    facts: &ProgramFacts,
    method: &MethodRef,
) -> Result<(), Memory>
    ensures { let f = found_method facts.now.nodes method.now in let p = declarations_of facts.now in
        let t = scoped_result p f.on f.method in
        OnOk result (found.new.items ≡ found.old.items ++ (broken_value t.scope (is_unknown_scope p t) A1
        ++ ((a6_of p f.on f.method ++ a7_and_a8_of p f.on f.method)
        ++ broken_value t.scope (contradicts p t) A9))) }
{
    let declared = declared(facts.program(), method);
    let modifiers = declared.modifiers;
    let current = runs_in(facts, method);
    let thing = scoped_in_member(false, method.on, &current, modifiers.is_static, &declared);
    note_unknown(found, facts, &thing)?;
    note_override(found, facts, method)?;
    if let Some(written) = &modifiers.runs_in {
        let is_unknown = has_unknown_runs_in(facts, method, written);
        report_if(found, is_unknown, Rule::A7, written.position)?;
        let is_other = has_other_runs_in(facts, method.on, method, written);
        report_if(found, is_other, Rule::A8, written.position)?;
    }
    note_contradiction(found, facts, &thing)?;
    Ok(())
}

/// Notes A1, A6 to A8 and A9 at a method. Before most nothing is written, and A6 alone may be broken.
#[tactic(auto, unfolding(scj_rules::specs::AnnotationRules::a7_and_a8_of))]
pub fn note_method(
    found: &mut Vec<Found>,
    facts: &ProgramFacts,
    method: &MethodRef,
) -> Result<(), Memory>
    ensures { let f = found_method facts.now.nodes method.now in let p = declarations_of facts.now in
        let t = scoped_result p f.on f.method in
        OnOk result (found.new.items ≡ found.old.items ++ (broken_value t.scope (is_unknown_scope p t) A1
        ++ ((a6_of p f.on f.method ++ a7_and_a8_of p f.on f.method)
        ++ broken_value t.scope (contradicts p t) A9))) }
{
    if is_plain(facts.program(), method) {
        return note_override(found, facts, method);
    }
    note_written(found, facts, method)
}
