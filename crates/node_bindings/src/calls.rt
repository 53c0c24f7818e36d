//! What calls stand for.

ghost use Rattle.std.specs.Prelude.{◌≡◌};
ghost use Rattle.scj_rules.specs.Types.{call_receiver, called_method};
ghost use Rattle.scj_rules.specs.Bindings.{plain_or, second_class, called_on, target, method_binding};
ghost use Rattle.method_rows.specs.Methods.{found_method};
ghost use Rattle.program_facts.specs.Reported.{declared, types};

use method_rows::{MethodRef, builtin, is_static, node, result_type};
use program_facts::At;
use scj_base::ids::MANAGED_MEMORY;
use scj_base::{ClassId, MethodId, Name, NodeId};
use scj_rules::{Binding, Receiver, Target};
use type_rules::names::{call_receiver, method_called};
use type_words::{class_of_receiver, class_of_type, is_void};

/// The type of the second argument, where it is a class.
#[tactic(auto, unfolding(scj_rules::specs::Bindings::second_class))]
fn second_class(at: &At<'_>, arguments: &[NodeId]) -> Option<ClassId>
    ensures { result ≡ second_class (types at.now) arguments.now }
{
    match arguments {
        [_, second] => {
            let t = at.type_of(*second)?;
            class_of_type(&t)
        }
        _ => None,
    }
}

/// The class on which a method is called.
#[tactic(auto, unfolding(scj_rules::specs::Bindings::called_on, method_rows::specs::Methods::found_method))]
fn called_on(at: &At<'_>, receiver: &Receiver, method: &MethodRef, arguments: &[NodeId]) -> ClassId
    ensures { result ≡ called_on (types at.now) receiver.now (found_method at.now.facts.now.nodes method.now)
        arguments.now }
{
    if method.on == MANAGED_MEMORY {
        return second_class(at, arguments).unwrap_or(method.on);
    }
    if is_static(at.facts.program(), method) {
        return method.on;
    }
    class_of_receiver(receiver).unwrap_or(method.on)
}

/// The method that a call stands for.
#[tactic(auto, unfolding(scj_rules::specs::Bindings::target))]
fn target(
    at: &At<'_>,
    receiver: &Receiver,
    method: &MethodRef,
    arguments: &[NodeId],
    id: MethodId,
) -> Target
    ensures { result ≡ target (types at.now) receiver.now (found_method at.now.facts.now.nodes method.now)
        arguments.now id }
{
    let on = called_on(at, receiver, method, arguments);
    let gives = !is_void(&result_type(at.facts.program(), method));
    Target { id, on, gives }
}

/// A call of a method.
#[tactic(auto, unfolding(scj_rules::specs::Bindings::method_binding, scj_rules::specs::Contexts::declarations_of))]
fn method_binding(at: &At, receiver: &Receiver, method: &MethodRef, arguments: &[NodeId]) -> Binding
    ensures { result ≡ method_binding (declared at.now) (types at.now) receiver.now arguments.now
        (found_method at.now.facts.now.nodes method.now) }
{
    let program = at.facts.program();
    if let Some(number) = builtin(method) {
        return Binding::Builtin(target(at, receiver, method, arguments, number));
    }
    let Some(number) = at.facts.classes().method_number(node(program, method)) else {
        return Binding::Plain;
    };
    let aim = target(at, receiver, method, arguments, number);
    if is_static(program, method) {
        Binding::StaticMethod(aim)
    } else {
        Binding::Method(aim)
    }
}

/// A call.
pub fn call_binding(at: &At, name: &Name, object: &Option<NodeId>, arguments: &[NodeId]) -> Binding
    ensures { let p = declared at.now in result ≡ plain_or (λ r. plain_or (method_binding p (types at.now)
        r arguments.now) (called_method p r name.now)) (call_receiver p (types at.now) at.now.id object.now) }
{
    let Some(receiver) = call_receiver(at, object) else {
        return Binding::Plain;
    };
    match method_called(at, &receiver, name) {
        Some(method) => method_binding(at, &receiver, &method, arguments),
        None => Binding::Plain,
    }
}
