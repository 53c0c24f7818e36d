//! What a node stands for, by its kind.

ghost use Rattle.std.specs.Prelude.{◌≡◌, IfOk, None, Some, option_and_then, slice_get};
ghost use Rattle.scj_tree.specs.Recursion.{lookup};
ghost use Rattle.scj_rules.specs.Classes.{superclass_in};
ghost use Rattle.scj_rules.specs.Contexts.{declarations_of};
ghost use Rattle.scj_rules.specs.Definitions.{read};
ghost use Rattle.scj_rules.specs.Types.{array_of, meaning};
ghost use Rattle.scj_rules.specs.TypeRules.{written_type};
ghost use Rattle.scj_rules.specs.Bindings.{array_class, class_binding, meaning_binding, binding_of, binding_at};
ghost use Rattle.node_contexts.specs.Numbers.{numbers_before};
ghost use Rattle.program_facts.specs.Meanings.{meant, simply_named};
ghost use Rattle.node_bindings.specs.Kinds.{is_bound_kind};

use crate::calls::call_binding;
use crate::fields::{access_at, array_class, class_binding, field_binding, field_here};
use crate::numbers::variable_binding;
use program_facts::{At, NameMeaning, ProgramFacts};
use scj_base::{ClassId, Memory, Name, NodeId};
use scj_rules::{Binding, Ty};
use scj_tree::NodeKind::{
    Call, Cast, Class, Constructor, Field, FieldAccess, Local, LocalWithValue, New, NewArray,
    Parameter, SimpleName, SuperCall,
};
use scj_tree::{Node, NodeKind};
use type_rules::forms::is_form_part;
use type_rules::names::{array_written, meaning_there};

/// What a name stands for.
#[tactic(auto, unfolding(program_facts::specs::Meanings::meant, scj_rules::specs::Bindings::meaning_binding))]
fn meaning_binding(
    facts: &ProgramFacts<'_>,
    numbers: &[u32],
    id: NodeId,
    meaning: &NameMeaning,
) -> Result<Binding, Memory>
    requires { numbers.now ≡ numbers_before (declarations_of facts.now) }
    ensures { IfOk result (λ b. b ≡ meaning_binding (declarations_of facts.now) id
        (meant facts.now.nodes meaning.now)) }
{
    match meaning {
        NameMeaning::Variable(variable) => variable_binding(facts, numbers, id, *variable),
        NameMeaning::Field(field) => Ok(field_binding(facts.classes(), field)),
        NameMeaning::Class(class) => Ok(Binding::Class(*class)),
        NameMeaning::Nothing => Ok(Binding::Plain),
    }
}

/// What a simple name stands for.
fn name_binding(
    facts: &ProgramFacts,
    numbers: &[u32],
    id: NodeId,
    name: &Name,
) -> Result<Binding, Memory>
    requires numbers { numbers.now ≡ numbers_before (declarations_of facts.now) }
    requires there { read facts.now.nodes simply_named id ≡ Some name.now }
    ensures { IfOk result (λ b. b ≡ meaning_binding (declarations_of facts.now) id
        (meaning (declarations_of facts.now) id name.now)) }
{
    let meaning = meaning_there(facts, id, name);
    meaning_binding(facts, numbers, id, &meaning)
}

/// The superclass of a class.
fn superclass_binding(facts: &ProgramFacts<'_>, class: Option<ClassId>) -> Binding
    ensures { result ≡ class_binding (option_and_then (superclass_in (declarations_of facts.now).classes) class) }
{
    match class {
        Some(class) => class_binding(facts.classes().superclass(class)),
        None => Binding::Plain,
    }
}

/// A new array.
fn new_array(facts: &ProgramFacts<'_>, element: NodeId) -> Result<Binding, Memory>
    ensures { let p = declarations_of facts.now in IfOk result (λ b. b
        ≡ class_binding (option_and_then (array_class p) (option_and_then array_of (written_type p element)))) }
{
    let Some(t) = array_written(facts, element) else {
        return Ok(Binding::Plain);
    };
    let class = array_class(facts.classes(), &t)?;
    Ok(class_binding(class))
}

/// What a node stands for, by its kind.
#[tactic(auto, unfolding(program_facts::specs::Meanings::simply_named, scj_rules::specs::Bindings::binding_of))]
fn binding_of(
    facts: &ProgramFacts<'_>,
    numbers: &[u32],
    types: &[Option<Ty>],
    id: NodeId,
    node: &Node,
) -> Result<Binding, Memory>
    requires numbers { numbers.now ≡ numbers_before (declarations_of facts.now) }
    requires there { slice_get facts.now.nodes id ≡ Some node.now }
    ensures { IfOk result (λ b. b ≡ binding_of (declarations_of facts.now) (lookup None types.now) id node.now) }
{
    match node {
        Node::Parameter { .. } | Node::Local { .. } | Node::LocalWithValue { .. } => {
            variable_binding(facts, numbers, id, id)
        }
        Node::Field { name, .. } => Ok(field_here(facts, id, name.get())),
        Node::Class { name, .. } => Ok(superclass_binding(facts, facts.class_of(name.get()))),
        Node::Constructor { .. } | Node::SuperCall { .. } => {
            Ok(superclass_binding(facts, facts.context(id).class))
        }
        Node::SimpleName { name, .. } => name_binding(facts, numbers, id, name.get()),
        Node::FieldAccess { name, object, .. } => {
            let at = At {
                facts,
                types,
                scopes: &[],
                id,
            };
            Ok(access_at(&at, *object, name.get()))
        }
        Node::Call {
            name,
            object,
            arguments,
            ..
        } => {
            let at = At {
                facts,
                types,
                scopes: &[],
                id,
            };
            Ok(call_binding(&at, name.get(), object, arguments.items()))
        }
        Node::New { name, .. } => {
            if is_form_part(facts, id) {
                return Ok(Binding::Plain);
            }
            Ok(class_binding(facts.class_of(name.get())))
        }
        Node::NewArray { element, .. } => new_array(facts, *element),
        Node::Cast { name, .. } => Ok(class_binding(facts.class_of(name.get()))),
        _ => Ok(Binding::Plain),
    }
}

/// Whether nodes of this kind may stand for something else than themselves.
#[tactic(auto, unfolding(crate::specs::Kinds::is_bound_kind))]
fn is_bound_kind(kind: &Option<NodeKind>) -> bool
    ensures { result ≡ is_bound_kind kind.now }
{
    matches!(
        kind,
        Some(Class | Field | Constructor | Parameter | SuperCall | Local | LocalWithValue | Cast)
            | Some(SimpleName | FieldAccess | Call | New | NewArray)
    )
}

/// What a node stands for. Its kind is looked at first, since most nodes stand for nothing but themselves.
#[tactic(auto, unfolding(scj_rules::specs::Bindings::binding_at, scj_rules::specs::Contexts::declarations_of), using(crate::proofs::KindLemmas::unbound))]
pub fn binding_at(
    facts: &ProgramFacts<'_>,
    numbers: &[u32],
    types: &[Option<Ty>],
    id: NodeId,
) -> Result<Binding, Memory>
    requires { numbers.now ≡ numbers_before (declarations_of facts.now) }
    ensures { IfOk result (λ b. b ≡ binding_at (declarations_of facts.now) (lookup None types.now) id) }
{
    if !is_bound_kind(&facts.program().kind(id)) {
        return Ok(Binding::Plain);
    }
    match facts.program().get(id) {
        Some(node) => binding_of(facts, numbers, types, id, node),
        None => Ok(Binding::Plain),
    }
}
