//! What a class has of which an access or a call asks it, as rows.

ghost use Rattle.std.specs.Prelude.{◌≡◌, Some, option_map};
ghost use Rattle.scj_rules.specs.Definitions.{read};
ghost use Rattle.scj_rules.specs.Types.{accessed_field, called_method};
ghost use Rattle.method_rows.specs.Methods.{found_method};
ghost use Rattle.class_rows.specs.Fields.{found_field};
ghost use Rattle.program_facts.specs.Meanings.{member_named, IsMeaningAt};
ghost use Rattle.program_facts.specs.Reported.{declared};
ghost use Rattle.type_rules.specs.Members.{field_in, method_in};

use class_rows::FieldRef;
use method_rows::MethodRef;
use program_facts::{At, NodeMeaning};
use scj_base::Name;
use scj_rules::Receiver;
use type_words::class_of_receiver;

/// The field that a row names.
#[tactic(auto, unfolding(crate::specs::Members::field_in))]
pub fn field_in(row: &NodeMeaning) -> Option<FieldRef>
    ensures { result ≡ field_in row.now }
{
    match row {
        NodeMeaning::Field(_, field) => Some(*field),
        _ => None,
    }
}

/// The method that a row names.
#[tactic(auto, unfolding(crate::specs::Members::method_in))]
pub fn method_in(row: &NodeMeaning) -> Option<MethodRef>
    ensures { result ≡ method_in row.now }
{
    match row {
        NodeMeaning::Method(_, method) => Some(*method),
        _ => None,
    }
}

/// The row of an access of this name: the field that the class of its receiver has.
#[tactic(auto, unfolding(crate::specs::Members::field_in, program_facts::specs::Meanings::IsMeaningAt, program_facts::specs::Meanings::IsMember))]
pub fn field_row(at: &At<'_>, receiver: &Receiver, name: &Name) -> NodeMeaning
    requires { read at.now.facts.now.nodes member_named at.now.id ≡ Some name.now }
    ensures row { IsMeaningAt at.now.facts.now at.now.id result }
    ensures field { option_map (found_field at.now.facts.now.nodes) (field_in result)
        ≡ accessed_field (declared at.now) receiver.now name.now }
{
    let Some(class) = class_of_receiver(receiver) else {
        return NodeMeaning::Nothing;
    };
    match at.facts.classes().field_named(class, name) {
        Some(field) => NodeMeaning::Field(class, field),
        None => NodeMeaning::Nothing,
    }
}

/// The row of a call of this name: the method that the class of its receiver has.
#[tactic(auto, unfolding(crate::specs::Members::method_in, program_facts::specs::Meanings::IsMeaningAt, program_facts::specs::Meanings::IsMember))]
pub fn method_row(at: &At<'_>, receiver: &Receiver, name: &Name) -> NodeMeaning
    requires { read at.now.facts.now.nodes member_named at.now.id ≡ Some name.now }
    ensures row { IsMeaningAt at.now.facts.now at.now.id result }
    ensures method { option_map (found_method at.now.facts.now.nodes) (method_in result)
        ≡ called_method (declared at.now) receiver.now name.now }
{
    let Some(class) = class_of_receiver(receiver) else {
        return NodeMeaning::Nothing;
    };
    match at.facts.classes().method_named(class, name) {
        Some(method) => NodeMeaning::Method(class, method),
        None => NodeMeaning::Nothing,
    }
}
