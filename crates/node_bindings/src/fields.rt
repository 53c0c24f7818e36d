//! What fields, arrays and classes stand for.

ghost use Rattle.std.specs.Prelude.{◌≡◌, ◌+◌, IfOk, option_and_then};
ghost use Rattle.scj_rules.specs.declared.typing.FoundField.{FoundField};
ghost use Rattle.scj_rules.specs.declared.typing.Receiver.TheVariants.{Class as the_class};
ghost use Rattle.scj_rules.specs.Contexts.{declarations_of, context};
ghost use Rattle.scj_rules.specs.Types.{accessed_field, receiver};
ghost use Rattle.scj_rules.specs.Bindings.{array_class, plain_or, field_binding, class_binding, access_binding};
ghost use Rattle.class_rows.specs.Fields.{found_field};
ghost use Rattle.program_facts.specs.Reported.{declared, types};

use class_rows::fields::is_static_field;
use class_rows::{ClassTable, FieldRef};
use program_facts::{At, ProgramFacts};
use scj_base::{ClassId, Memory, Name, NodeId};
use scj_rules::{Binding, Receiver, Ty};
use type_rules::names::{field_accessed, receiver};
use type_words::{is_array_value, is_length};

/// A class, if there is one.
pub fn class_binding(class: Option<ClassId>) -> Binding
    ensures { result ≡ class_binding class }
{
    match class {
        Some(class) => Binding::Class(class),
        None => Binding::Plain,
    }
}

/// A field, by its number.
#[tactic(auto, using(class_rows::proofs::FieldLemmas::node_of_found), unfolding(scj_rules::specs::Bindings::field_binding))]
pub fn field_binding(classes: &ClassTable<'_>, field: &FieldRef) -> Binding
    ensures { result ≡ field_binding (declarations_of classes.now) (found_field classes.now.nodes field.now).field }
{
    match classes.field_number(field.node) {
        Some(number) => {
            if is_static_field(classes.program(), field) {
                Binding::Static(number)
            } else {
                Binding::Field(number)
            }
        }
        None => Binding::Plain,
    }
}

/// The field of a name in the class where a node stands.
#[tactic(auto, unfolding(scj_rules::specs::Types::class_of_receiver))]
pub fn field_here(facts: &ProgramFacts<'_>, id: NodeId, name: &Name) -> Binding
    ensures { let p = declarations_of facts.now in result ≡ plain_or (λ (row : FoundField). field_binding p row.field)
        (option_and_then (λ class. accessed_field p (the_class class) name.now) (context p id).class) }
{
    let Some(class) = facts.context(id).class else {
        return Binding::Plain;
    };
    match facts.classes().field_named(class, name) {
        Some(field) => field_binding(facts.classes(), &field),
        None => Binding::Plain,
    }
}

/// An access.
#[tactic(auto, unfolding(scj_rules::specs::Bindings::access_binding))]
pub fn access_at(at: &At<'_>, object: NodeId, name: &Name) -> Binding
    ensures { let p = declared at.now in
        result ≡ plain_or (λ r. access_binding p r name.now) (receiver p (types at.now) object) }
{
    let Some(receiver) = receiver(at, object) else {
        return Binding::Plain;
    };
    if is_array_value(&receiver) && is_length(name) {
        return Binding::Length;
    }
    match field_accessed(at, &receiver, name) {
        Some(field) => field_binding(at.facts.classes(), &field),
        None => Binding::Plain,
    }
}

/// The sum, if it fits.
fn sum(a: usize, b: u32) -> Result<u32, Memory>
    ensures { IfOk result (λ n. n ≡ a + b) }
{
    if a > 0x7fff_ffff || b > 0x7fff_ffff {
        return Err(Memory);
    }
    Ok(a as u32 + b)
}

/// The class of an array, behind the others.
#[tactic(auto, unfolding(scj_rules::specs::Bindings::array_class))]
pub fn array_class(classes: &ClassTable<'_>, t: &Ty) -> Result<Option<ClassId>, Memory>
    ensures { IfOk result (λ class. class ≡ array_class (declarations_of classes.now) t.now) }
{
    let first = classes.name_count();
    let number = match t {
        Ty::IntArray => sum(first, 0)?,
        Ty::BoolArray => sum(first, 1)?,
        Ty::ClassArray(class) => {
            let two = sum(first, 2)?;
            sum(two as usize, class.number())?
        }
        _ => return Ok(None),
    };
    Ok(Some(ClassId::at(number)))
}
