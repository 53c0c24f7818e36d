//! What is broken at calls: E2, E3, E7 and E8.

ghost use Rattle.std.specs.Prelude.{◌≡◌, ◌++◌, IfOk, OnOk, option_map, slice_get};
ghost use Rattle.scj_tree.specs.declared.nodes.Node.TheVariants.{Call};
ghost use Rattle.scj_base.specs.declared.findings.Rule.TheVariants.{E2};
ghost use Rattle.scj_rules.specs.Words.{broken, holds};
ghost use Rattle.scj_rules.specs.Contexts.{declarations_of};
ghost use Rattle.scj_rules.specs.Types.{called_builtin, method_called};
ghost use Rattle.scj_rules.specs.UseRules.{current_at, receiver_scope, misfits_call, e3_of_call, run_of, isnt_in_parent, misfits_enter, misfits_execute, scope_of, use_breaks};
ghost use Rattle.method_rows.specs.Methods.{found_method};
ghost use Rattle.program_facts.specs.Reported.{declared, types, scopes};
ghost use Rattle.runs_in_check.specs.Phase.{parameters_of, seen_scope, argument_breaks, e3_of, entry_breaks};

use crate::scopes::{is_other, misfit_scope, receiver_scope, scope_of_call};
use method_rows::{MethodRef, builtin};
use node_views::position_at;
use program_facts::{At, ProgramFacts};
use scj_base::ids::{MANAGED_MEMORY_ENTER_PRIVATE_MEMORY, MANAGED_MEMORY_EXECUTE_IN_AREA_OF};
use scj_base::{ClassId, Found, Memory, MethodId, Name, NodeId, Position, Rule, ScopeId};
use scj_builtins::FRAMEWORK_CLASS_COUNT;
use scj_rules::{Declared, Scope, Ty, report_if};
use scope_tree::scopes::{defined_by_chain, parent_scope};
use static_scopes::{current_at, parameter_scope, runs_in, scope_in, substitute, this_in};
use type_rules::arguments::{Takes, constructor_parameters};
use type_rules::names;

/// What is called, with the scope of the object for which it runs.
#[derive(Clone, Copy)]
pub enum Callee {
    /// A method.
    Method(MethodRef, Option<Scope>),
    /// The constructor of a class.
    Constructor(ClassId, Option<Scope>),
}

/// The parameter of a number of what is called.
#[tactic(auto, unfolding(crate::specs::Phase::parameters_of, type_rules::specs::Parameters::taken))]
fn parameter(facts: &ProgramFacts<'_>, callee: &Callee, i: usize) -> Option<Declared>
    ensures { result ≡ slice_get (parameters_of facts.now callee.now) i }
{
    let program = facts.program();
    match callee {
        Callee::Method(method, _) => method_rows::parameter(program, method, i),
        Callee::Constructor(class, _) => match &constructor_parameters(facts, *class) {
            Takes::Method(method) => method_rows::parameter(program, method, i),
            Takes::Listed(parameters) => node_views::parameter(program, *parameters, i),
        },
    }
}

/// The scope of a parameter as the caller sees it.
#[tactic(auto, unfolding(crate::specs::Phase::seen_scope))]
fn seen_scope(at: &At<'_>, callee: &Callee, parameter: &Declared) -> Option<Scope>
    ensures { result ≡ seen_scope at.now callee.now parameter.now }
{
    let facts = at.facts;
    match callee {
        Callee::Method(method, object) => {
            let scope = parameter_scope(facts, method, parameter)?;
            substitute(object, &current_at(facts, at.id), &scope)
        }
        Callee::Constructor(class, object) => {
            let scope = scope_in(facts, *class, &this_in(facts, *class), false, parameter)?;
            substitute(object, object, &scope)
        }
    }
}

/// Notes E3 at an argument, where there is a parameter of its number. What has no scope fits.
#[tactic(auto, using(crate::proofs::CallLemmas::none_misfits), unfolding(crate::specs::Phase::argument_breaks))]
fn note_argument(
    found: &mut Vec<Found>,
    at: &At<'_>,
    callee: &Callee,
    i: usize,
    argument: NodeId,
) -> Result<(), Memory>
    ensures { OnOk result (found.new.items ≡ found.old.items ++ argument_breaks at.now callee.now
        (slice_get (parameters_of at.now.facts.now callee.now) i) argument) }
{
    let value = at.scope_of(argument);
    if value.is_none() {
        return Ok(());
    }
    let facts = at.facts;
    match &parameter(facts, callee, i) {
        Some(parameter) => {
            let is_wrong = misfit_scope(&value, &seen_scope(at, callee, parameter));
            let position = position_at(facts.program(), argument);
            report_if(found, is_wrong, Rule::E3, position)
        }
        None => Ok(()),
    }
}

/// Notes E3 at each argument of a call.
#[tactic(auto, using(crate::proofs::CallLemmas::arguments_more, crate::proofs::CallLemmas::arguments_all, crate::proofs::CallLemmas::e3_over_arguments))]
pub fn note_arguments(
    found: &mut Vec<Found>,
    at: &At<'_>,
    callee: &Callee,
    arguments: &[NodeId],
) -> Result<(), Memory>
    ensures { OnOk result (found.new.items ≡ found.old.items ++ e3_of at.now callee.now arguments.now) }
{
    for i in 0..arguments.len() {
        note_argument(found, at, callee, i, arguments[i])?;
    }
    Ok(())
}

/// Whether a user's method may not be called here, by the scope in which it runs.
#[tactic(auto, unfolding(scj_rules::specs::UseRules::misfits_runs_in))]
fn misfits_call(at: &At<'_>, object: &Option<NodeId>, method: &MethodRef) -> bool
    ensures { result ≡ misfits_call (declared at.now) (scopes at.now) at.now.id object.now
        (found_method at.now.facts.now.nodes method.now) }
{
    let facts = at.facts;
    match &runs_in(facts, method) {
        Some(scope) => match scope {
            Scope::Caller => false,
            Scope::This => misfit_scope(&receiver_scope(at, object), &current_at(facts, at.id)),
            Scope::Any | Scope::In(_) | Scope::Unknown | Scope::Lost => is_other(
                &current_at(facts, at.id),
                scope,
            ),
        },
        None => false,
    }
}

/// Notes E2 and E3 at a call of a user's method.
#[tactic(auto, unfolding(crate::specs::Phase::e3_of))]
fn note_user_method(
    found: &mut Vec<Found>,
    at: &At<'_>,
    position: Position,
    object: &Option<NodeId>,
    arguments: &[NodeId],
    method: &MethodRef,
) -> Result<(), Memory>
    ensures { let p = declared at.now in let f = found_method at.now.facts.now.nodes method.now in
        OnOk result (found.new.items ≡ found.old.items
        ++ (broken (misfits_call p (scopes at.now) at.now.id object.now f) E2 position
        ++ e3_of_call p (scopes at.now) (receiver_scope p (scopes at.now) at.now.id object.now)
        (current_at p at.now.id) arguments.now f)) }
{
    report_if(found, misfits_call(at, object, method), Rule::E2, position)?;
    let callee = Callee::Method(*method, receiver_scope(at, object));
    note_arguments(found, at, &callee, arguments)?;
    Ok(())
}

/// The user's `run` of a class.
fn run_of(facts: &ProgramFacts<'_>, class: ClassId) -> Option<MethodRef>
    ensures { option_map (found_method facts.now.nodes) result ≡ run_of (declarations_of facts.now) class }
{
    let classes = facts.classes();
    let method = classes.method_named(class, &Name::new(b"run"))?;
    match builtin(&method) {
        Some(_) => None,
        None => Some(method),
    }
}

/// Whether the parent of a scope isn't the current one.
fn isnt_in_parent(facts: &ProgramFacts<'_>, id: NodeId, scope: ScopeId) -> bool
    ensures { result ≡ isnt_in_parent (declarations_of facts.now) id scope }
{
    match parent_scope(facts, scope) {
        Some(parent) => is_other(&current_at(facts, id), &Scope::In(parent)),
        None => false,
    }
}

/// Whether private memory may not be entered here with a value of a type.
#[tactic(auto, unfolding(scj_rules::specs::UseRules::misfits_enter, scj_rules::specs::UseRules::misfits_entered))]
fn misfits_enter(facts: &ProgramFacts<'_>, id: NodeId, t: &Option<Ty>) -> bool
    ensures { result ≡ holds t.now (misfits_enter (declarations_of facts.now) id) }
{
    match t {
        Some(Ty::Class(class)) => {
            if class.number() < FRAMEWORK_CLASS_COUNT {
                return true;
            }
            match defined_by_chain(facts, *class) {
                Some(scope) => {
                    isnt_in_parent(facts, id, scope)
                        || match &run_of(facts, *class) {
                            Some(method) => {
                                let run = runs_in(facts, method);
                                is_other(&run, &Scope::Caller) && is_other(&run, &Scope::In(scope))
                            }
                            None => false,
                        }
                }
                None => true,
            }
        }
        Some(_) => true,
        None => false,
    }
}

/// Whether a value of a type may not be run in the area of an object of this scope.
#[tactic(auto, unfolding(scj_rules::specs::UseRules::misfits_execute, scj_rules::specs::UseRules::is_named_scope))]
fn misfits_execute(facts: &ProgramFacts<'_>, area: &Option<Scope>, t: &Option<Ty>) -> bool
    ensures { result ≡ holds t.now (misfits_execute (declarations_of facts.now) area.now) }
{
    match t {
        Some(Ty::Class(class)) => match (&run_of(facts, *class), area) {
            (Some(method), Some(Scope::In(scope))) => {
                is_other(&runs_in(facts, method), &Scope::In(*scope))
            }
            (Some(_), None) => false,
            _ => true,
        },
        Some(_) => true,
        None => false,
    }
}

/// Notes E7 and E8 at a call of the framework's method of a number.
#[tactic(auto, unfolding(crate::specs::Phase::entry_breaks))]
fn note_entry(
    found: &mut Vec<Found>,
    at: &At<'_>,
    position: Position,
    number: MethodId,
    arguments: &[NodeId],
) -> Result<(), Memory>
    ensures { OnOk result (found.new.items ≡ found.old.items ++ entry_breaks at.now position number arguments.now) }
{
    match arguments {
        [o, r] => {
            let enters = number == MANAGED_MEMORY_ENTER_PRIVATE_MEMORY
                && misfits_enter(at.facts, at.id, &at.type_of(*r));
            report_if(found, enters, Rule::E7, position)?;
            let executes = number == MANAGED_MEMORY_EXECUTE_IN_AREA_OF
                && misfits_execute(at.facts, &at.scope_of(*o), &at.type_of(*r));
            report_if(found, executes, Rule::E8, position)?;
            Ok(())
        }
        _ => Ok(()),
    }
}

/// The method that a call invokes.
fn method_called(at: &At<'_>, name: &Name, object: &Option<NodeId>) -> Option<MethodRef>
    ensures { option_map (found_method at.now.facts.now.nodes) result ≡ method_called (declared at.now) (types at.now)
        at.now.id object.now name.now }
{
    // The proof wants the type named that a receiver may hold.
    let _types: &[Option<Ty>] = at.types;
    let receiver = names::call_receiver(at, object)?;
    names::method_called(at, &receiver, name)
}

/// The number of the framework's method that a call invokes, if it invokes one.
pub fn called_builtin(at: &At<'_>, name: &Name, object: &Option<NodeId>) -> Option<MethodId>
    ensures { result ≡ called_builtin (declared at.now) (types at.now) at.now.id object.now name.now }
{
    let Some(method) = method_called(at, name, object) else {
        return None;
    };
    builtin(&method)
}

/// Notes what is broken at a call, E2 and E3 of a user's method and E7 and E8 of one of the framework's, and tells the
/// scope of what the method gives.
#[tactic(auto, using(crate::proofs::CallLemmas::no_call, crate::proofs::CallLemmas::user_call, crate::proofs::CallLemmas::framework_call, crate::proofs::CallLemmas::scope_there))]
pub fn note_call(
    found: &mut Vec<Found>,
    at: &At<'_>,
    position: Position,
    name: &Name,
    object: &Option<NodeId>,
    arguments: &[NodeId],
) -> Result<Option<Scope>, Memory>
    ensures scope { IfOk result (λ scope. scope ≡ scope_of (declared at.now) (types at.now) (scopes at.now) at.now.id
        (Call position name.now object.now arguments.now)) }
    ensures found { OnOk result (found.new.items ≡ found.old.items ++ use_breaks
        (declared at.now) (types at.now) (scopes at.now) at.now.id (Call position name.now object.now arguments.now)) }
{
    let Some(method) = method_called(at, name, object) else {
        return Ok(None);
    };
    match builtin(&method) {
        Some(number) => note_entry(found, at, position, number, arguments)?,
        None => note_user_method(found, at, position, object, arguments, &method)?,
    }
    Ok(scope_of_call(at, object, &method))
}
