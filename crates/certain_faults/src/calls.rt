//! What a call leaves, by what its object and its arguments leave.

ghost use Rattle.std.specs.Prelude.{◌≡◌};
ghost use Rattle.scj_tree.specs.Recursion.{lookup};
ghost use Rattle.certain_faults.specs.declared.known.Left.TheVariants.{Forgets as forgets};
ghost use Rattle.certain_faults.specs.Known.{leaves_receiver, left_by_method, left_by_read, left_by_same, left_by_builtin, left_by_call};

use crate::known::{Known, Left};
use crate::nodes::{all_leave_one, in_place_of, leaves_one, left_at, unknown_in_place_of_two};
use scj_base::ids::{DEVICE_READ, MANAGED_MEMORY_ALLOC_IN_SAME};
use scj_base::{MethodId, NodeId};
use scj_rules::Binding;

/// Whether the object of a call leaves one operand; `this` does where none is written.
#[tactic(auto, unfolding(crate::specs::Known::leaves_receiver))]
fn leaves_receiver(rows: &[Left], object: Option<NodeId>) -> bool
    ensures { result ≡ leaves_receiver (lookup forgets rows.now) object }
{
    match object {
        None => true,
        Some(object) => leaves_one(left_at(rows, object)),
    }
}

/// What a call of a method leaves. It gives a value where the method has a result and its object, if any, is one operand.
#[tactic(auto, unfolding(crate::specs::Known::left_by_method))]
fn method_left(rows: &[Left], arguments: &[NodeId], gives: bool) -> Left
    ensures { result ≡ left_by_method (lookup forgets rows.now) arguments.now gives }
{
    if gives && all_leave_one(rows, arguments) {
        Left::One(Known::Unknown)
    } else {
        Left::Forgets
    }
}

/// What a call of `Device.read` leaves.
#[tactic(auto, unfolding(crate::specs::Known::left_by_read))]
fn read_left(rows: &[Left], arguments: &[NodeId]) -> Left
    ensures { result ≡ left_by_read (lookup forgets rows.now) arguments.now }
{
    match arguments {
        [x] => in_place_of(left_at(rows, *x), Known::Unknown),
        _ => Left::Forgets,
    }
}

/// What a call of `allocInSame` leaves.
#[tactic(auto, unfolding(crate::specs::Known::left_by_same))]
fn same_left(rows: &[Left], arguments: &[NodeId]) -> Left
    ensures { result ≡ left_by_same (lookup forgets rows.now) arguments.now }
{
    match arguments {
        [x, y] => unknown_in_place_of_two(left_at(rows, *x), left_at(rows, *y)),
        _ => Left::Forgets,
    }
}

/// What a call of a method of the framework leaves.
#[tactic(auto, unfolding(crate::specs::Known::left_by_builtin))]
fn builtin_left(rows: &[Left], arguments: &[NodeId], method: MethodId) -> Left
    ensures { result ≡ left_by_builtin (lookup forgets rows.now) arguments.now method }
{
    if method == DEVICE_READ {
        read_left(rows, arguments)
    } else if method == MANAGED_MEMORY_ALLOC_IN_SAME {
        same_left(rows, arguments)
    } else {
        Left::Forgets
    }
}

/// What a call leaves.
#[tactic(auto, unfolding(crate::specs::Known::left_by_call))]
pub fn call_left(
    rows: &[Left],
    object: Option<NodeId>,
    arguments: &[NodeId],
    binding: Binding,
) -> Left
    ensures { result ≡ left_by_call (lookup forgets rows.now) object arguments.now binding }
{
    match binding {
        Binding::Method(target) => {
            let gives = target.gives && leaves_receiver(rows, object);
            method_left(rows, arguments, gives)
        }
        Binding::StaticMethod(target) => method_left(rows, arguments, target.gives),
        Binding::Builtin(target) => builtin_left(rows, arguments, target.id),
        _ => Left::Forgets,
    }
}
