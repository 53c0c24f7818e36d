//! The types of what names, accesses and calls stand for.

ghost use Rattle.std.specs.Prelude.{◌≡◌, option_and_then, option_map};
ghost use Rattle.scj_rules.specs.Classes.{FoundMethod};
ghost use Rattle.scj_rules.specs.Types.{type_written, accessed_field};
ghost use Rattle.scj_rules.specs.Contexts.{declarations_of};
ghost use Rattle.scj_rules.specs.TypeRules.{type_of_meaning, access_type, declared_type_of};
ghost use Rattle.method_rows.specs.Methods.{found_method};
ghost use Rattle.class_rows.specs.Fields.{found_field};
ghost use Rattle.program_facts.specs.Meanings.{meant};

use crate::names::{type_written, written_type};
use class_rows::FieldRef;
use method_rows::{MethodRef, result_type};
use program_facts::{NameMeaning, ProgramFacts};
use scj_base::Name;
use scj_rules::{Receiver, Ty};
use scj_tree::Node;
use type_words::{is_array_value, is_length};

/// The type of a field, of which no name is copied.
#[tactic(auto, unfolding(class_rows::specs::Fields::found_field, scj_rules::specs::Views::field_of, scj_rules::specs::Types::type_written, scj_rules::specs::Contexts::declarations_of))]
fn type_of_field(facts: &ProgramFacts<'_>, field: &FieldRef) -> Option<Ty>
    ensures { result ≡ type_written (declarations_of facts.now).names
        (found_field facts.now.nodes field.now).field.declared_type }
{
    match facts.program().get(field.node) {
        Some(Node::Field { declared_type, .. }) => written_type(facts, *declared_type),
        _ => Some(Ty::Void),
    }
}

/// The type of what a name stands for.
#[tactic(auto, unfolding(program_facts::specs::Meanings::meant, scj_rules::specs::TypeRules::type_of_meaning, scj_rules::specs::Views::variable_of, scj_rules::specs::Contexts::declarations_of))]
pub fn type_of_meaning(facts: &ProgramFacts<'_>, meaning: &NameMeaning) -> Option<Ty>
    ensures { result ≡ type_of_meaning (declarations_of facts.now) (meant facts.now.nodes meaning.now) }
{
    match meaning {
        NameMeaning::Variable(variable) => match facts.program().get(*variable)? {
            Node::Parameter { declared_type, .. }
            | Node::Local { declared_type, .. }
            | Node::LocalWithValue { declared_type, .. } => written_type(facts, *declared_type),
            _ => None,
        },
        NameMeaning::Field(field) => type_of_field(facts, field),
        NameMeaning::Class(_) | NameMeaning::Nothing => None,
    }
}

/// The type of an array's length, or of the field that a receiver has.
#[tactic(auto, unfolding(scj_rules::specs::TypeRules::access_type))]
pub fn access_type(
    facts: &ProgramFacts<'_>,
    receiver: &Receiver,
    name: &Name,
    field: &Option<FieldRef>,
) -> Option<Ty>
    requires { option_map (found_field facts.now.nodes) field.now ≡ accessed_field (declarations_of facts.now)
        receiver.now name.now }
    ensures { result ≡ access_type (declarations_of facts.now) receiver.now name.now }
{
    if is_array_value(receiver) && is_length(name) {
        return Some(Ty::Int);
    }
    match field {
        Some(field) => type_of_field(facts, field),
        None => None,
    }
}

/// The type of a call: the result of the method that a receiver has.
pub fn call_type(facts: &ProgramFacts<'_>, method: &Option<MethodRef>) -> Option<Ty>
    ensures { result ≡ option_and_then (λ (f : FoundMethod). declared_type_of
        (declarations_of facts.now) f.method.declared) (option_map (found_method facts.now.nodes) method.now) }
{
    match method {
        Some(method) => type_written(facts, &result_type(facts.program(), method)),
        None => None,
    }
}
