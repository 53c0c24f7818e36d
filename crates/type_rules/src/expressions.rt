//! What is broken at operators, arrays, casts and accesses.

ghost use Rattle.std.specs.Prelude.{◌≡◌, ℕ, List, option_map};
ghost use Rattle.scj_rules.specs.Definitions.{read};
ghost use Rattle.scj_rules.specs.Words.{holds};
ghost use Rattle.scj_rules.specs.Classes.{class_number};
ghost use Rattle.scj_rules.specs.Contexts.{declarations_of};
ghost use Rattle.scj_rules.specs.Types.{kind_is, is_form, accessed_field};
ghost use Rattle.scj_rules.specs.TypeRules.{misfits_index, misfits_length, misfits_cast, element_class, lacks_field, lacks_object, lacks_object_of_field};
ghost use Rattle.class_rows.specs.Fields.{found_field};
ghost use Rattle.program_facts.specs.Reported.{declared, types};

use crate::names::assigns;
use class_rows::FieldRef;
use class_rows::fields::is_static_field;
use program_facts::{At, ProgramFacts};
use scj_base::{Name, NodeId};
use scj_builtins::ClassKind;
use scj_rules::{Receiver, Ty};
use scj_tree::Node;
use type_words::{
    are_same, is_array, is_array_value, is_length, is_no_reference, is_reference, is_value,
    names_class,
};

/// Whether an array and its index have types that don't fit.
pub fn misfits_index(at: &At<'_>, array: NodeId, index: NodeId) -> bool
    ensures { result ≡ misfits_index (types at.now) array index }
{
    match (at.type_of(array), at.type_of(index)) {
        (Some(a), Some(i)) => !(is_array(&a) && are_same(&i, &Ty::Int)),
        _ => false,
    }
}

/// Whether the length of an array has a type that isn't int.
pub fn misfits_length(at: &At<'_>, length: NodeId) -> bool
    ensures { result ≡ misfits_length (types at.now) length }
{
    at.type_of(length).is_some_and(|t| !are_same(&t, &Ty::Int))
}

/// Whether the class of a name is a part of a form.
#[tactic(auto, unfolding(scj_rules::specs::Types::is_form))]
pub fn is_form_named(facts: &ProgramFacts<'_>, name: &Name) -> bool
    ensures { result ≡ holds (class_number (declarations_of facts.now).names name.now)
        (kind_is is_form (declarations_of facts.now)) }
{
    match facts.class_of(name) {
        Some(class) => matches!(facts.classes().kind(class), Some(ClassKind::Form)),
        None => false,
    }
}

/// Whether the elements of an array are parts of a form.
#[tactic(auto, unfolding(scj_rules::specs::TypeRules::element_class, scj_rules::specs::Contexts::declarations_of))]
pub fn has_form_elements(facts: &ProgramFacts<'_>, element: NodeId) -> bool
    ensures { result ≡ holds (read (declarations_of facts.now).nodes
        (element_class (declarations_of facts.now)) element) (kind_is is_form (declarations_of facts.now)) }
{
    match facts.program().get(element) {
        Some(Node::ClassType { name, .. }) => is_form_named(facts, name.get()),
        _ => false,
    }
}

/// Whether a cast goes between types of which neither may be assigned to the other.
pub fn misfits_cast(at: &At<'_>, name: &Name, operand: NodeId) -> bool
    ensures { result ≡ misfits_cast (declared at.now) (types at.now) name.now operand }
{
    let (Some(t), Some(class)) = (at.type_of(operand), at.facts.class_of(name)) else {
        return false;
    };
    let u = Ty::Class(class);
    !(is_reference(&t) && (assigns(at.facts, &t, &u) || assigns(at.facts, &u, &t)))
}

/// Whether no object is at hand: a class is named, or no object is written and there is none here.
pub fn lacks_object(facts: &ProgramFacts<'_>, id: NodeId, receiver: &Receiver) -> bool
    ensures { result ≡ lacks_object (declarations_of facts.now) id receiver.now }
{
    names_class(receiver) || (!is_value(receiver) && !facts.has_object(id))
}

/// Whether there is no such field of a receiver, or a static one through a value.
#[tactic(auto, unfolding(scj_rules::specs::TypeRules::lacks_field))]
pub fn lacks_field(
    facts: &ProgramFacts<'_>,
    receiver: &Receiver,
    name: &Name,
    field: &Option<FieldRef>,
) -> bool
    requires { option_map (found_field facts.now.nodes) field.now ≡ accessed_field (declarations_of facts.now)
        receiver.now name.now }
    ensures { result ≡ lacks_field (declarations_of facts.now) receiver.now name.now }
{
    if is_no_reference(receiver) {
        return false;
    }
    if is_array_value(receiver) && is_length(name) {
        return false;
    }
    match field {
        Some(field) => is_value(receiver) && is_static_field(facts.program(), field),
        None => true,
    }
}

/// Whether a receiver has such a field that isn't static, and no object is at hand.
pub fn lacks_object_of_field(at: &At<'_>, receiver: &Receiver, field: &Option<FieldRef>) -> bool
    ensures { (name : List ℕ) →
        option_map (found_field at.now.facts.now.nodes) field.now ≡ accessed_field (declared at.now) receiver.now
        name → result ≡ lacks_object_of_field (declared at.now) at.now.id name receiver.now }
{
    let Some(field) = field else {
        return false;
    };
    lacks_object(at.facts, at.id, receiver) && !is_static_field(at.facts.program(), field)
}
