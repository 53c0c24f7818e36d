//! The pass over all nodes: what breaks the rules on annotations and uses at each, A and E, and the scope that it has.

ghost use Rattle.std.specs.Prelude.{◌≡◌, ◌++◌, None, Some, IfOk, OnOk, option_map, slice_get};
ghost use Rattle.scj_tree.specs.Kinds.{kind_of};
ghost use Rattle.scj_tree.specs.Recursion.{lookup};
ghost use Rattle.scj_rules.specs.Words.{holds};
ghost use Rattle.scj_rules.specs.Contexts.{declarations_of};
ghost use Rattle.scj_rules.specs.Phases.{BreaksUseRules};
ghost use Rattle.scj_rules.specs.Report.{IsReport};
ghost use Rattle.scj_rules.specs.TypeRules.{types_in};
ghost use Rattle.scj_rules.specs.AnnotationRules.{annotation_breaks};
ghost use Rattle.scj_rules.specs.UseRules.{scope_of, scope_of_next, use_breaks};
ghost use Rattle.program_facts.specs.Reported.{declared, types, scopes};
ghost use Rattle.runs_in_check.specs.Guards.{AreGuards};
ghost use Rattle.runs_in_check.specs.Phase.{is_plain, is_asked, breaks_at};

use crate::calls::note_call;
use crate::guards::{Guards, guards_of};
use crate::nodes::{
    misfits_array, misfits_local, misfits_result, note_assign, note_cast, note_new, note_super_call,
};
use crate::scopes::{scope_of_access, scope_of_element, scope_of_name};
use annotation_rules::note_annotation;
use program_facts::{At, ProgramFacts};
use scj_base::{Found, Memory, NodeId, Rule};
use scj_rules::{Scope, Ty, put_in_order, report_if};
use scj_tree::NodeKind::{
    Assign, Call, Cast, Class, Element, Field, FieldAccess, Local, LocalWithValue, Method, New,
    NewArray, Null, Parameter, Parenthesized, Return, SimpleName, SuperCall, This,
};
use scj_tree::{Node, Program};
use static_scopes::{current_at, this_at};
use std::alloc::Global;
use type_words::is_reference;

/// Notes what is broken at a node, and tells its scope.
#[tactic(auto, unfolding(program_facts::specs::Meanings::simply_named, scj_rules::specs::AnnotationRules::annotation_breaks, scj_rules::specs::AnnotationRules::a1, scj_rules::specs::AnnotationRules::a2, scj_rules::specs::AnnotationRules::a3_to_a5, scj_rules::specs::AnnotationRules::a6_to_a8, scj_rules::specs::AnnotationRules::a9, scj_rules::specs::AnnotationRules::scoped_declaration_at, scj_rules::specs::UseRules::scope_of, scj_rules::specs::UseRules::use_breaks, scj_rules::specs::UseRules::e1, scj_rules::specs::UseRules::e2, scj_rules::specs::UseRules::e3, scj_rules::specs::UseRules::e4_and_e5, scj_rules::specs::UseRules::e6, scj_rules::specs::UseRules::e7, scj_rules::specs::UseRules::e8, scj_rules::specs::UseRules::e9, scj_rules::specs::UseRules::e10))]
fn judge(
    found: &mut Vec<Found>,
    at: &At<'_>,
    guards: &Guards,
    node: &Node,
) -> Result<Option<Scope>, Memory>
    requires guards { AreGuards (declared at.now) (types at.now) guards.now }
    requires there { slice_get at.now.facts.now.nodes at.now.id ≡ Some node.now }
    ensures scope { IfOk result (λ scope. scope
        ≡ scope_of (declared at.now) (types at.now) (scopes at.now) at.now.id node.now) }
    ensures found { OnOk result (found.new.items ≡ found.old.items
        ++ (annotation_breaks (declared at.now) at.now.id node.now
        ++ use_breaks (declared at.now) (types at.now) (scopes at.now) at.now.id node.now)) }
{
    let facts = at.facts;
    match node {
        Node::SimpleName { name, .. } => Ok(scope_of_name(at, name.get())),
        Node::Assign {
            position,
            target,
            value,
        } => {
            note_assign(found, at, guards, *position, *target, *value)?;
            Ok(None)
        }
        Node::Class { .. }
        | Node::Field { .. }
        | Node::Method { .. }
        | Node::Parameter { .. }
        | Node::Local { .. } => {
            note_annotation(found, facts, at.id, node)?;
            Ok(None)
        }
        Node::LocalWithValue {
            position,
            value,
            ..
        } => {
            note_annotation(found, facts, at.id, node)?;
            report_if(found, misfits_local(at, *value), Rule::E4, *position)?;
            Ok(None)
        }
        Node::Return {
            position,
            value: Some(value),
        } => {
            report_if(found, misfits_result(at, *value), Rule::E6, *position)?;
            Ok(None)
        }
        Node::Parenthesized { inner, .. } => Ok(at.scope_of(*inner)),
        Node::FieldAccess { name, object, .. } => Ok(scope_of_access(at, name.get(), *object)),
        Node::Call {
            position,
            name,
            object,
            arguments,
        } => note_call(found, at, *position, name.get(), object, arguments.items()),
        Node::New {
            position,
            name,
            arguments,
            ..
        } => note_new(found, at, *position, name.get(), arguments.items()),
        Node::SuperCall { arguments, .. } => {
            note_super_call(found, at, arguments.items())?;
            Ok(None)
        }
        Node::Cast {
            position,
            name,
            operand,
            ..
        } => note_cast(found, at, *position, name.get(), *operand),
        Node::NewArray {
            position,
            element,
            ..
        } => {
            report_if(found, misfits_array(at, *element), Rule::E10, *position)?;
            Ok(current_at(facts, at.id))
        }
        Node::Element { array, .. } => Ok(scope_of_element(at, *array)),
        Node::This { .. } => Ok(this_at(facts, at.id)),
        Node::Null { .. } => Ok(Some(Scope::Any)),
        _ => Ok(None),
    }
}

/// Whether a node has a type, and its values are no references.
fn is_plain(types: &[Option<Ty>], id: NodeId) -> bool
    ensures { result ≡ is_plain (lookup None types.now id) }
{
    match types.get(id.number()) {
        Some(Some(t)) => !is_reference(t),
        _ => false,
    }
}

/// Whether a node may have a scope or break a rule, as its kind tells, and of a name its type: a name whose values are
/// no references has no scope.
#[tactic(auto, unfolding(crate::specs::Phase::is_asked))]
fn is_asked(program: &Program, types: &[Option<Ty>], id: NodeId) -> bool
    ensures { result ≡ holds (option_map kind_of (slice_get program.now.nodes id))
        (is_asked (lookup None types.now id)) }
{
    match program.kind(id) {
        Some(SimpleName) => !is_plain(types, id),
        Some(Class | Field | Method | Parameter | Local) => true,
        Some(SuperCall | LocalWithValue | Assign | Return | Cast | Parenthesized | FieldAccess)
        | Some(Call | Element | New | NewArray | Null | This) => true,
        _ => false,
    }
}

/// Notes what is broken at the node of a number, and tells its scope, by the scopes of those before it. Most nodes have
/// none and break nothing, and aren't looked at.
#[tactic(auto, using(crate::proofs::NodeLemmas::no_break, crate::proofs::NodeLemmas::no_scope_there), unfolding(scj_rules::specs::UseRules::scope_of_next, scj_rules::specs::Contexts::declarations_of, crate::specs::Phase::breaks_at))]
fn next_scope<'a>(
    found: &mut Vec<Found>,
    facts: &'a ProgramFacts<'a>,
    types: &'a [Option<Ty>],
    scopes: &'a [Option<Scope>],
    guards: &Guards,
    id: NodeId,
) -> Result<Option<Scope>, Memory>
    requires types { types.now ≡ types_in (declarations_of facts.now) }
    requires guards { AreGuards (declarations_of facts.now) (lookup None types.now) guards.now }
    ensures scope { IfOk result (λ scope. scope
        ≡ scope_of_next (declarations_of facts.now) (lookup None types.now) id (lookup None scopes.now)) }
    ensures found { OnOk result (found.new.items ≡ found.old.items
        ++ breaks_at (declarations_of facts.now) (lookup None types.now) (lookup None scopes.now) id) }
{
    let program = facts.program();
    if !is_asked(program, types, id) {
        return Ok(None);
    }
    let Some(node) = program.get(id) else {
        return Ok(None);
    };
    let at = At {
        facts,
        types,
        scopes,
        id,
    };
    let scope = judge(found, &at, guards, node)?;
    Ok(scope)
}

/// The report of annotations and uses, by the types of the nodes. What is broken at a node hangs on the scopes of those
/// before it alone, so one pass tells both.
#[tactic(auto, unfolding(scj_tree::specs::Recursion::joined_below, scj_tree::specs::Recursion::bottom_up))]
pub fn check_uses<'a>(
    alloc: Global,
    facts: &'a ProgramFacts<'a>,
    types: &'a [Option<Ty>],
) -> Result<Vec<Found>, Memory>
    requires { types.now ≡ types_in (declarations_of facts.now) }
    ensures { IfOk result (λ found. IsReport (BreaksUseRules facts.now) found.items) }
{
    let program = facts.program();
    let guards = guards_of(alloc, facts, types)?;
    let mut scopes = Vec::with_capacity(alloc, program.len())?;
    let mut found = Vec::new(alloc);
    for number in 0..program.len() {
        let id = NodeId::at(number as u32);
        let scope = next_scope(&mut found, &*facts, &*types, &scopes, &guards, id)?;
        scopes.push(scope)?;
    }
    put_in_order(&mut found);
    Ok(found)
}
