//! What is broken at calls, at `new` and at classes.

ghost use Rattle.std.specs.Prelude.{◌≡◌, ◌++◌, ◌&&◌, IfOk, OnOk, Some, is_some, option_map, slice_get};
ghost use Rattle.scj_tree.specs.declared.nodes.Node.TheVariants.{Call as a_call};
ghost use Rattle.scj_rules.specs.Words.{holds};
ghost use Rattle.scj_rules.specs.Classes.{class_number, superclass_in};
ghost use Rattle.scj_rules.specs.Contexts.{declarations_of};
ghost use Rattle.scj_rules.specs.Types.{all_types, kind_is};
ghost use Rattle.scj_rules.specs.TypeRules.{type_breaks, type_of, cannot_be_called, misfits_new, has_untyped_argument, has_other_than_int, is_never_made, makes_no_object, is_misplaced_form, calls_unwritten, takes_arguments, misfits_class, lacks_form};
ghost use Rattle.method_rows.specs.Methods.{found_method};
ghost use Rattle.type_rules.specs.Parameters.{breaks_on};
ghost use Rattle.program_facts.specs.Meanings.{IsMeaningAt};
ghost use Rattle.program_facts.specs.Reported.{declared, types};

use crate::arguments::{
    Takes, are_typed, constructor_parameters, misfit, misfit_typed, takes_arguments,
};
use crate::expressions::{is_form_named, lacks_object, misfits_length};
use crate::forms::{form_in, is_form_part, super_arguments};
use crate::members::{method_in, method_row};
use crate::names::call_receiver;
use crate::results::call_type;
use crate::statements::has_framework_size;
use method_rows::{MethodRef, is_callable_row, is_static, result_type};
use program_facts::{At, NodeMeaning, ProgramFacts};
use scj_base::ids::{OBJECT, SAFELET};
use scj_base::{ClassId, Found, Memory, Name, NodeId, Position, Rule};
use scj_builtins::{ClassKind, FRAMEWORK_CLASS_COUNT};
use scj_rules::{Receiver, Ty, has_form, report_if};
use type_words::{is_long, is_no_reference, is_value};

/// Whether a method isn't callable, as size methods aren't, or not on this receiver: a static one through a value.
#[tactic(auto, unfolding(method_rows::specs::Methods::found_method))]
fn cannot_be_called(facts: &ProgramFacts<'_>, receiver: &Receiver, method: &MethodRef) -> bool
    ensures { result ≡ cannot_be_called (declarations_of facts.now) receiver.now
        (found_method facts.now.nodes method.now) }
{
    let program = facts.program();
    let is_size = is_long(&result_type(program, method))
        && has_framework_size(facts, method.on, &method_rows::name(program, method));
    !(is_callable_row(program, method) && !is_size)
        || (is_value(receiver) && is_static(program, method))
}

/// Notes what is broken at a call, by its receiver and the method that this has, and tells whether its arguments have
/// types.
#[tactic(auto, unfolding(crate::specs::Parameters::taken, crate::specs::Parameters::breaks_on))]
fn note_called(
    found: &mut Vec<Found>,
    at: &At<'_>,
    position: Position,
    receiver: &Receiver,
    method: &Option<MethodRef>,
    arguments: &[NodeId],
) -> Result<bool, Memory>
    ensures typed { IfOk result (λ typed. typed ≡ is_some (all_types (types at.now) arguments.now)) }
    ensures found { OnOk result (found.new.items ≡ found.old.items ++ breaks_on (declared at.now) (types at.now)
        at.now.id position receiver.now (option_map (found_method at.now.facts.now.nodes) method.now) arguments.now) }
{
    let typed = are_typed(at, arguments);
    let is_plain = is_no_reference(receiver);
    report_if(found, is_plain && typed, Rule::T3, position)?;
    let Some(method) = method else {
        report_if(found, !is_plain && typed, Rule::T5, position)?;
        return Ok(typed);
    };
    let lacks = !is_plain && cannot_be_called(at.facts, receiver, method);
    report_if(found, lacks && typed, Rule::T5, position)?;
    let misfits = !lacks && misfit_typed(at, &Takes::Method(*method), arguments, typed);
    report_if(found, misfits, Rule::T6, position)?;
    let is_apart = lacks_object(at.facts, at.id, receiver)
        && (!lacks && !is_static(at.facts.program(), method));
    report_if(found, is_apart && typed, Rule::T13, position)?;
    Ok(typed)
}

/// Notes what is broken at a call, and tells its type and its row.
#[tactic(auto, using(crate::proofs::CallLemmas::call_breaks, crate::proofs::CallLemmas::no_breaks, crate::proofs::CallLemmas::typed_then), unfolding(scj_rules::specs::TypeRules::type_of, scj_rules::specs::TypeRules::call_type, program_facts::specs::Meanings::IsMeaningAt, program_facts::specs::Meanings::member_named))]
pub fn judge_call(
    found: &mut Vec<Found>,
    at: &At<'_>,
    position: Position,
    name: &Name,
    object: &Option<NodeId>,
    arguments: &[NodeId],
) -> Result<(Option<Ty>, NodeMeaning), Memory>
    requires { slice_get at.now.facts.now.nodes at.now.id ≡ Some (a_call position name.now object.now arguments.now) }
    ensures type_of { IfOk result (λ r. r.0 ≡ type_of (declared at.now) (types at.now) at.now.id
        (a_call position name.now object.now arguments.now)) }
    ensures found { OnOk result (found.new.items ≡ found.old.items
        ++ type_breaks (declared at.now) (types at.now) at.now.id (a_call position name.now object.now arguments.now)) }
    ensures row { IfOk result (λ r. IsMeaningAt at.now.facts.now at.now.id r.1) }
{
    let Some(receiver) = call_receiver(at, object) else {
        return Ok((None, NodeMeaning::Nothing));
    };
    let row = method_row(at, &receiver, name);
    let method = method_in(&row);
    if !note_called(found, at, position, &receiver, &method, arguments)? {
        return Ok((None, row));
    }
    Ok((call_type(at.facts, &method), row))
}

/// Whether an argument in a form has no type, and is no part of the form itself.
fn has_untyped_argument(at: &At<'_>, arguments: &[NodeId]) -> bool
    ensures { result ≡ has_untyped_argument (declared at.now) (types at.now) arguments.now }
{
    arguments.iter().any(|a| !is_form_part(at.facts, *a) && at.type_of(*a).is_none())
}

/// Whether an argument in a form has a type that isn't int, and is no part of the form itself.
fn has_other_than_int(at: &At<'_>, arguments: &[NodeId]) -> bool
    ensures { result ≡ has_other_than_int (declared at.now) (types at.now) arguments.now }
{
    arguments
        .iter()
        .any(|a| !is_form_part(at.facts, *a) && misfits_length(at, *a))
}

/// Whether the arguments of a `new` don't fit.
#[tactic(auto, unfolding(scj_rules::specs::TypeRules::misfits_new))]
pub fn misfits_new(at: &At<'_>, name: &Name, arguments: &[NodeId]) -> bool
    ensures { result ≡ misfits_new (declared at.now) (types at.now) at.now.id name.now arguments.now }
{
    if is_form_part(at.facts, at.id) {
        return !has_untyped_argument(at, arguments) && has_other_than_int(at, arguments);
    }
    let Some(class) = at.facts.class_of(name) else {
        return false;
    };
    (class.number() >= FRAMEWORK_CLASS_COUNT || class == OBJECT)
        && misfit(at, &constructor_parameters(at.facts, class), arguments)
}

/// Whether the class of a name has no objects of its own, and is no part of a form.
#[tactic(auto, unfolding(scj_rules::specs::Types::is_form, scj_rules::specs::Types::is_concrete))]
fn is_never_made(facts: &ProgramFacts<'_>, name: &Name) -> bool
    ensures { result ≡ holds (class_number (declarations_of facts.now).names name.now)
        (kind_is is_never_made (declarations_of facts.now)) }
{
    let Some(class) = facts.class_of(name) else {
        return false;
    };
    matches!(
        facts.classes().kind(class),
        Some(ClassKind::Abstract | ClassKind::Interface | ClassKind::Static)
    )
}

/// Whether a `new` with arguments that have types makes what has no objects.
#[tactic(auto, using(crate::proofs::CallLemmas::typed_test))]
pub fn makes_no_object(at: &At<'_>, name: &Name, arguments: &[NodeId]) -> bool
    ensures { result ≡ makes_no_object (declared at.now) (types at.now) name.now arguments.now }
{
    is_never_made(at.facts, name) && are_typed(at, arguments)
}

/// Whether a part of a form is made outside of one.
pub fn is_misplaced_form(at: &At<'_>, name: &Name) -> bool
    ensures { result ≡ is_misplaced_form (declared at.now) at.now.id name.now }
{
    is_form_named(at.facts, name) && !is_form_part(at.facts, at.id)
}

/// Whether the constructor of a class calls its superclass's without writing so, and that takes arguments.
fn misfits_super(facts: &ProgramFacts<'_>, class: ClassId) -> bool
    ensures { result ≡ (calls_unwritten (declarations_of facts.now) class && holds
        (superclass_in (declarations_of facts.now).classes class) (takes_arguments (declarations_of facts.now))) }
{
    if super_arguments(facts, class).is_some() {
        return false;
    }
    match facts.classes().superclass(class) {
        Some(superclass) => takes_arguments(facts, superclass),
        None => false,
    }
}

/// Whether a constructor that takes arguments is called without any: by a class below, or of the safelet.
#[tactic(auto, unfolding(scj_rules::specs::TypeRules::misfits_class, scj_rules::specs::Types::is_concrete))]
pub fn misfits_class(facts: &ProgramFacts<'_>, class: ClassId) -> bool
    ensures { result ≡ misfits_class (declarations_of facts.now) class }
{
    if misfits_super(facts, class) {
        return true;
    }
    matches!(facts.classes().kind(class), Some(ClassKind::Concrete))
        && facts.classes().implements(class, SAFELET)
        && takes_arguments(facts, class)
}

/// Whether the form is missing with which the constructor of a class has to begin.
pub fn lacks_form(facts: &ProgramFacts<'_>, class: ClassId) -> bool
    ensures { result ≡ lacks_form (declarations_of facts.now) class }
{
    let Some(superclass) = facts.classes().superclass(class) else {
        return false;
    };
    has_form(superclass) && form_in(facts, class, NodeId::at(0)).is_none()
}
