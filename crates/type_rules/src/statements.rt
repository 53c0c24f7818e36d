//! What is broken at declarations and statements.

ghost use Rattle.std.specs.Prelude.{◌≡◌, ◌++◌, OnOk, option_and_then};
ghost use Rattle.scj_rules.specs.ClassRules.{is_same_type};
ghost use Rattle.scj_rules.specs.Definitions.{read};
ghost use Rattle.scj_rules.specs.Views.{type_at};
ghost use Rattle.scj_rules.specs.declared.views.WrittenType.TheVariants.{Long as long_type, Void as void_type};
ghost use Rattle.scj_rules.specs.Words.{holds};
ghost use Rattle.scj_rules.specs.Contexts.{declarations_of, context};
ghost use Rattle.scj_rules.specs.TypeRules.{result_of_member, misfits_value, misfits_initial_value, misfits_assignment, is_length_target, misfits_condition, lacks_value, misfits_result, ends_without_return, has_framework_size, misfits_long, misfits_super_call};
ghost use Rattle.program_facts.specs.Reported.{declared, types};
ghost use Rattle.type_words.specs.Returns.{all_returns};

use crate::arguments::{constructor_parameters, misfit};
use crate::names::{assigns, receiver, written_type};
use method_rows::result_type;
use node_views::position_at;
use program_facts::{At, ProgramFacts};
use scj_base::{ClassId, Found, Memory, Name, NodeId, Rule};
use scj_rules::{Ty, has_form, report_if};
use scj_tree::{Node, Program, row_or};
use type_words::{are_same, is_array_value, is_length, is_long, is_size_body};

/// Whether a value can't be assigned to the target, where both have types.
fn misfits_value(facts: &ProgramFacts<'_>, target: &Option<Ty>, value: &Option<Ty>) -> bool
    ensures { result ≡ misfits_value (declarations_of facts.now) target.now value.now }
{
    match (target, value) {
        (Some(target), Some(value)) => !assigns(facts, value, target),
        _ => false,
    }
}

/// Whether a declared variable doesn't take its value.
pub fn misfits_initial_value(at: &At<'_>, declared_type: NodeId, value: NodeId) -> bool
    ensures { result ≡ misfits_initial_value (declared at.now) (types at.now) declared_type value }
{
    let target = written_type(at.facts, declared_type);
    misfits_value(at.facts, &target, &at.type_of(value))
}

/// Whether the target is the length of an array.
#[tactic(auto, unfolding(scj_rules::specs::TypeRules::is_length_target, scj_rules::specs::Contexts::declarations_of))]
fn is_length_target(at: &At<'_>, target: NodeId) -> bool
    ensures { result ≡ holds
        (read (declared at.now).nodes (is_length_target (declared at.now) (types at.now)) target) (λ b. b) }
{
    let Some(Node::FieldAccess { name, object, .. }) = at.facts.program().get(target) else {
        return false;
    };
    match receiver(at, *object) {
        Some(r) => is_array_value(&r) && is_length(name.get()),
        None => false,
    }
}

/// Whether an assigned value doesn't fit, or its target is the length of an array.
pub fn misfits_assignment(at: &At<'_>, target: NodeId, value: NodeId) -> bool
    ensures { result ≡ misfits_assignment (declared at.now) (types at.now) target value }
{
    let old = at.type_of(target);
    let new = at.type_of(value);
    old.is_some()
        && new.is_some()
        && (misfits_value(at.facts, &old, &new) || is_length_target(at, target))
}

/// Notes a condition that isn't boolean.
#[tactic(auto, unfolding(scj_rules::specs::Contexts::declarations_of))]
pub fn note_condition(found: &mut Vec<Found>, at: &At<'_>, condition: NodeId) -> Result<(), Memory>
    ensures { OnOk result (found.new.items ≡ found.old.items
        ++ misfits_condition (declared at.now) (types at.now) condition) }
{
    let t = at.type_of(condition);
    let misfits = t.is_some_and(|t| !are_same(&t, &Ty::Bool));
    if !misfits {
        return Ok(());
    }
    let position = position_at(at.facts.program(), condition);
    report_if(found, misfits, Rule::T8, position)
}

/// Whether a node writes `long`, of which no type is made.
#[tactic(auto, unfolding(scj_rules::specs::Views::type_of_node, scj_rules::specs::ClassRules::is_same_type))]
fn writes_long(program: &Program, node: NodeId) -> bool
    ensures { result ≡ is_same_type (type_at program.now.nodes node) long_type }
{
    matches!(program.get(node), Some(Node::LongType { .. }))
}

/// Whether a node writes `void`, or no type.
#[tactic(auto, unfolding(scj_rules::specs::Views::type_of_node, scj_rules::specs::ClassRules::is_same_type))]
fn writes_void(program: &Program, node: NodeId) -> bool
    ensures { result ≡ is_same_type (type_at program.now.nodes node) void_type }
{
    match program.get(node) {
        Some(
            Node::IntType { .. }
            | Node::BooleanType { .. }
            | Node::ClassType { .. }
            | Node::LongType { .. },
        ) => false,
        _ => true,
    }
}

/// The node of the result of the method in which a node stands.
#[tactic(auto, unfolding(scj_rules::specs::TypeRules::result_of_member, scj_rules::specs::Contexts::declarations_of))]
fn result_node(at: &At<'_>) -> Option<NodeId>
    ensures { let p = declared at.now in
        result ≡ option_and_then (read p.nodes result_of_member) (context p at.now.id).member }
{
    let context = at.facts.context(at.id);
    match at.facts.program().get(context.member?)? {
        Node::Method { result_type, .. } => Some(*result_type),
        _ => None,
    }
}

/// Whether a `return` without a value stands where one is asked.
#[tactic(auto, unfolding(scj_rules::specs::TypeRules::result_at, scj_rules::specs::ClassRules::is_same_type, scj_rules::specs::Contexts::declarations_of))]
pub fn lacks_value(at: &At<'_>) -> bool
    ensures { result ≡ lacks_value (declared at.now) at.now.id }
{
    match result_node(at) {
        Some(result_type) => !writes_void(at.facts.program(), result_type),
        None => false,
    }
}

/// Whether the value of a `return` doesn't fit the result. An int fits a result `long`.
#[tactic(auto, unfolding(scj_rules::specs::TypeRules::result_at, scj_rules::specs::ClassRules::is_same_type, scj_rules::specs::Contexts::declarations_of))]
pub fn misfits_result(at: &At<'_>, value: NodeId) -> bool
    ensures { result ≡ misfits_result (declared at.now) (types at.now) at.now.id value }
{
    let Some(t) = at.type_of(value) else {
        return false;
    };
    let Some(result_type) = result_node(at) else {
        return true;
    };
    let program = at.facts.program();
    if writes_long(program, result_type) {
        return !are_same(&t, &Ty::Int);
    }
    if writes_void(program, result_type) {
        return true;
    }
    match written_type(at.facts, result_type) {
        Some(u) => !assigns(at.facts, &t, &u),
        None => true,
    }
}

/// Whether a body with a result doesn't always return, by the nodes that do.
#[tactic(auto, using(type_words::proofs::ReturnLemmas::body_returns), unfolding(scj_rules::specs::Contexts::declarations_of))]
pub fn ends_without_return(
    facts: &ProgramFacts<'_>,
    returns: &[bool],
    result_type: NodeId,
    body: NodeId,
) -> bool
    requires { returns.now ≡ all_returns facts.now.nodes }
    ensures { result ≡ ends_without_return (declarations_of facts.now) result_type body }
{
    !writes_void(facts.program(), result_type) && !row_or(returns, false, body)
}

/// Whether the framework has a method of the name for the class, whose result is `long`.
pub fn has_framework_size(facts: &ProgramFacts<'_>, class: ClassId, name: &Name) -> bool
    ensures { result ≡ has_framework_size (declarations_of facts.now) class name.now }
{
    match facts.classes().framework_row_named(class, name) {
        Some(row) => is_long(&result_type(facts.program(), &row)),
        None => false,
    }
}

/// Whether a method has the result `long`, and isn't one of the framework's size methods or has another body than these.
#[tactic(auto, unfolding(scj_rules::specs::TypeRules::misfits_size, scj_rules::specs::Contexts::declarations_of))]
pub fn misfits_long(
    facts: &ProgramFacts<'_>,
    id: NodeId,
    name: &Name,
    result_type: NodeId,
    body: &Option<NodeId>,
) -> bool
    ensures { result ≡ misfits_long (declarations_of facts.now) id name.now result_type body.now }
{
    if !writes_long(facts.program(), result_type) {
        return false;
    }
    let is_size = match facts.context(id).class {
        Some(class) => has_framework_size(facts, class, name),
        None => false,
    };
    match body {
        Some(body) => !is_size || !is_size_body(facts.program(), *body),
        None => !is_size,
    }
}

/// Whether the arguments of a super call don't fit, where no form is due.
pub fn misfits_super_call(at: &At<'_>, arguments: &[NodeId]) -> bool
    ensures { result ≡ misfits_super_call (declared at.now) (types at.now) at.now.id arguments.now }
{
    let Some(class) = at.facts.context(at.id).class else {
        return false;
    };
    let Some(superclass) = at.facts.classes().superclass(class) else {
        return false;
    };
    !has_form(superclass) && misfit(at, &constructor_parameters(at.facts, superclass), arguments)
}
