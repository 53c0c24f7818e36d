//! Where methods run, and where fields, results, parameters and variables lie, as a table tells it or found anew; and
//! the tables of what is asked often.

ghost use Rattle.std.specs.Prelude.{◌≡◌, IfOk};
ghost use Rattle.class_rows.specs.Fields.{found_field};
ghost use Rattle.method_rows.specs.Methods.{found_method};
ghost use Rattle.scj_rules.specs.Contexts.{declarations_of};
ghost use Rattle.scj_rules.specs.StaticScopes.{runs_in, current_in, declaration_scope, scoped_variable, scoped_in_member, parameter_scope, field_scope};
ghost use Rattle.scj_rules.specs.AnnotationRules.{scoped_variable_at, result_scope};
ghost use Rattle.scj_rules.specs.UseRules.{this_at, current_at, variable_scope_at};
ghost use Rattle.program_facts.specs.Tables.{run_at, AreRunRows, AreRuns, AreVariables};

use crate::methods::{find_runs_in, method_at};
use crate::scopes::this_in;
use crate::things::{declaration_scope, find_field_scope, has_no_scope, scoped_in_member};
use class_rows::FieldRef;
use class_rows::fields::found_field;
use method_rows::{MethodRef, MethodSource, declared, result_type};
use node_contexts::is_static_member;
use node_views::{field_at, is_field, is_method, is_variable, variable_at, variable_type};
use program_facts::{ProgramFacts, Runs, Variables};
use scj_base::{ClassId, Memory, NodeId};
use scj_rules::{Declared, Scope, ScopedDeclaration};
use std::alloc::Global;
use std::collections::BTreeMap;

/// The scope in which a method runs.
#[tactic(auto, unfolding(program_facts::specs::Tables::scope_of_member, method_rows::specs::Methods::found_method, method_rows::specs::Methods::method_from, scj_rules::specs::Contexts::declarations_of))]
pub fn runs_in(facts: &ProgramFacts, method: &MethodRef) -> Option<Scope>
    ensures { result ≡ runs_in (declarations_of facts.now) (found_method facts.now.nodes method.now).on
        (found_method facts.now.nodes method.now).method }
{
    if let MethodSource::Declared(node) = &method.source {
        if is_method(facts.program(), *node) {
            if let Some(row) = facts.member_reported(method.on, *node) {
                return row;
            }
        }
    }
    find_runs_in(facts, method.on, method)
}

/// The scope that is current in a member of a class.
#[tactic(auto, unfolding(scj_rules::specs::StaticScopes::current_in, scj_rules::specs::Contexts::declarations_of))]
fn current_in(facts: &ProgramFacts, class: ClassId, member: NodeId) -> Option<Scope>
    ensures { result ≡ current_in (declarations_of facts.now) class member }
{
    match &method_at(facts.program(), class, member) {
        Some(method) => runs_in(facts, method),
        None => this_in(facts, class),
    }
}

/// THIS where a node stands.
pub fn this_at(facts: &ProgramFacts, id: NodeId) -> Option<Scope>
    ensures { result ≡ this_at (declarations_of facts.now) id }
{
    let context = facts.context(id);
    this_in(facts, context.class?)
}

/// The scope that is current where a node stands.
#[tactic(auto, unfolding(scj_rules::specs::UseRules::current_at))]
pub fn current_at(facts: &ProgramFacts, id: NodeId) -> Option<Scope>
    ensures { result ≡ current_at (declarations_of facts.now) id }
{
    let context = facts.context(id);
    current_in(facts, context.class?, context.member?)
}

/// The scope of a method's result. Most are no references, which the type tells.
#[tactic(auto, unfolding(method_rows::specs::Methods::found_method, scj_rules::specs::StaticScopes::declaration_scope))]
pub fn result_scope(facts: &ProgramFacts, method: &MethodRef) -> Option<Scope>
    ensures { result ≡ result_scope (declarations_of facts.now) (found_method facts.now.nodes method.now).on
        (found_method facts.now.nodes method.now).method }
{
    if has_no_scope(&result_type(facts.program(), method)) {
        return None;
    }
    let declared = declared(facts.program(), method);
    let is_static = declared.modifiers.is_static;
    let current = runs_in(facts, method);
    let thing = scoped_in_member(false, method.on, &current, is_static, &declared);
    declaration_scope(facts, &thing)
}

/// The scope of a parameter of a member of a class, where this scope is current.
pub fn scope_in(
    facts: &ProgramFacts,
    class: ClassId,
    current: &Option<Scope>,
    is_static: bool,
    parameter: &Declared,
) -> Option<Scope>
    ensures { result ≡ declaration_scope (declarations_of facts.now)
        (scoped_variable class current.now is_static parameter.now) }
{
    let thing = scoped_in_member(true, class, current, is_static, parameter);
    declaration_scope(facts, &thing)
}

/// The scope of a method's parameter. Most are no references, which the type tells.
#[tactic(auto, unfolding(method_rows::specs::Methods::found_method, scj_rules::specs::StaticScopes::declaration_scope))]
pub fn parameter_scope(
    facts: &ProgramFacts,
    method: &MethodRef,
    parameter: &Declared,
) -> Option<Scope>
    ensures { result ≡ parameter_scope (declarations_of facts.now) (found_method facts.now.nodes method.now).on
        (found_method facts.now.nodes method.now).method parameter.now }
{
    if has_no_scope(&parameter.declared_type) {
        return None;
    }
    let is_static = method_rows::is_static(facts.program(), method);
    let current = runs_in(facts, method);
    scope_in(facts, method.on, &current, is_static, parameter)
}

/// The scope of the field for which a row stands.
#[tactic(auto, unfolding(program_facts::specs::Tables::scope_of_member, class_rows::specs::Fields::found_field, scj_rules::specs::Contexts::declarations_of))]
pub fn field_scope(facts: &ProgramFacts, field: &FieldRef) -> Option<Scope>
    ensures { let f = found_field facts.now.nodes field.now in
        result ≡ field_scope (declarations_of facts.now) f.on f.field }
{
    if !is_method(facts.program(), field.node) && is_field(facts.program(), field.node) {
        if let Some(row) = facts.member_reported(field.on, field.node) {
            return row;
        }
    }
    let found = found_field(facts.program(), field);
    find_field_scope(facts, found.on, &found.field)
}

/// The parameter or local that a node declares, as a thing.
#[tactic(auto, unfolding(scj_rules::specs::AnnotationRules::scoped_variable_at, scj_rules::specs::Contexts::declarations_of))]
pub fn scoped_variable_at(facts: &ProgramFacts, id: NodeId) -> Option<ScopedDeclaration>
    ensures { result ≡ scoped_variable_at (declarations_of facts.now) id }
{
    let context = facts.context(id);
    let class = context.class?;
    let member = context.member?;
    let is_static = is_static_member(facts.program(), member);
    let current = current_in(facts, class, member);
    match &variable_at(facts.program(), id) {
        Some(declared) => Some(scoped_in_member(true, class, &current, is_static, declared)),
        None => None,
    }
}

/// The scope of the parameter or local that a node declares, found anew. Its type may tell that there is none.
#[tactic(auto, using(crate::proofs::VariableLemmas::plain_type))]
fn find_variable_scope(facts: &ProgramFacts, id: NodeId) -> Option<Scope>
    ensures { result ≡ variable_scope_at (declarations_of facts.now) id }
{
    if let Some(declared_type) = &variable_type(facts.program(), id) {
        if has_no_scope(declared_type) {
            return None;
        }
    }
    match &scoped_variable_at(facts, id) {
        Some(thing) => declaration_scope(facts, thing),
        None => None,
    }
}

/// The scope of the parameter or local that a node declares.
pub fn variable_scope(facts: &ProgramFacts, id: NodeId) -> Option<Scope>
    ensures { result ≡ variable_scope_at (declarations_of facts.now) id }
{
    match facts.variable_reported(id) {
        Some(scope) => Some(scope),
        None => find_variable_scope(facts, id),
    }
}

/// What is said of the member that a node declares in its class.
#[tactic(auto, unfolding(program_facts::specs::Tables::run_at, program_facts::specs::Tables::scope_of_member, scj_rules::specs::Contexts::declarations_of))]
fn run_at(facts: &ProgramFacts, id: NodeId) -> Option<Scope>
    ensures { result ≡ run_at (declarations_of facts.now) id }
{
    let context = facts.context(id);
    let class = context.class?;
    let program = facts.program();
    match (&method_at(program, class, id), &field_at(program, id)) {
        (Some(method), _) => find_runs_in(facts, class, method),
        (None, Some(field)) => find_field_scope(facts, class, field),
        (None, None) => None,
    }
}

/// What is said of the fields and methods of a program.
fn rows_of(alloc: Global, facts: &ProgramFacts) -> Result<BTreeMap<usize, Option<Scope>>, Memory>
    ensures { IfOk result (AreRunRows (declarations_of facts.now)) }
{
    let classes = facts.classes();
    let mut rows = BTreeMap::new(alloc);
    for id in classes.field_nodes().iter().chain(classes.method_nodes()) {
        rows.insert(id.number(), run_at(facts, *id))?;
    }
    Ok(rows)
}

/// Where the methods of a program run, and its fields lie.
pub fn runs_of(alloc: Global, facts: &ProgramFacts) -> Result<Runs, Memory>
    ensures { IfOk result (λ runs. AreRuns facts.now runs) }
{
    let rows = rows_of(alloc, facts)?;
    Ok(Runs { rows })
}

/// The scopes of the variables that nodes declare and that have one.
pub fn variables_of(alloc: Global, facts: &ProgramFacts) -> Result<Variables, Memory>
    ensures { IfOk result (λ variables. AreVariables facts.now variables) }
{
    let program = facts.program();
    let mut rows = BTreeMap::new(alloc);
    for number in 0..program.len() {
        let id = NodeId::at(number as u32);
        if is_variable(program, id) {
            if let Some(scope) = find_variable_scope(facts, id) {
                rows.insert(number, scope)?;
            }
        }
    }
    Ok(Variables { rows })
}
