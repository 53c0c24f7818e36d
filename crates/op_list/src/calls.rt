//! The parts of names, accesses, calls and new objects.

ghost use Rattle.std.specs.Prelude.{◌≡◌};
ghost use Rattle.op_list.specs.Parts.{name_parts, access_parts, binary_parts, new_parts, receiver_part, builtin_parts, call_parts, all_items};

use crate::parts::{Part, Parts};
use scj_base::ids::{
    APERIODIC_EVENT_HANDLER_REGISTER, APERIODIC_EVENT_HANDLER_RELEASE, DEVICE_READ,
    MANAGED_MEMORY_ALLOC_IN_SAME, MANAGED_MEMORY_ENTER_PRIVATE_MEMORY,
    MANAGED_MEMORY_EXECUTE_IN_AREA_OF, MISSION_REQUEST_TERMINATION,
    PERIODIC_EVENT_HANDLER_REGISTER, SERVICES_SET_CEILING, TRACE_PRINT,
};
use scj_base::vocabulary::{AND_AND, OR_OR};
use scj_base::{MethodId, NodeId};
use scj_model::Op;
use scj_rules::Binding;

/// The items of a node, from the first on.
pub fn all_items(id: NodeId) -> Part
    ensures { result ≡ all_items id }
{
    Part::Items { index: 0, list: id }
}

/// The parts of a name.
#[tactic(auto, unfolding(crate::specs::Parts::name_parts))]
pub fn name_parts(id: NodeId, binding: &Binding) -> Parts
    ensures { result ≡ name_parts id binding.now }
{
    match binding {
        Binding::Local(_) => Parts::one(Part::Emit(Op::Load(id))),
        Binding::Field(_) => Parts::two(Part::Emit(Op::This(id)), Part::Emit(Op::Get(id))),
        Binding::Static(_) => Parts::one(Part::Emit(Op::GetStatic(id))),
        _ => Parts::none(),
    }
}

/// The parts of an access.
#[tactic(auto, unfolding(crate::specs::Parts::access_parts))]
pub fn access_parts(id: NodeId, object: NodeId, binding: &Binding) -> Parts
    ensures { result ≡ access_parts id object binding.now }
{
    match binding {
        Binding::Field(_) => Parts::two(Part::Visit(object), Part::Emit(Op::Get(id))),
        Binding::Static(_) => Parts::one(Part::Emit(Op::GetStatic(id))),
        Binding::Length => Parts::two(Part::Visit(object), Part::Emit(Op::Length(id))),
        _ => Parts::none(),
    }
}

/// The parts of a binary operator.
#[tactic(auto, unfolding(crate::specs::Parts::binary_parts))]
pub fn binary_parts(id: NodeId, operator: u8, left: NodeId, right: NodeId) -> Parts
    ensures { result ≡ binary_parts id operator left right }
{
    if operator == AND_AND {
        Parts::two(Part::Visit(left), Part::Emit(Op::And(id)))
    } else if operator == OR_OR {
        Parts::two(Part::Visit(left), Part::Emit(Op::Or(id)))
    } else {
        Parts::three(
            Part::Visit(left),
            Part::Visit(right),
            Part::Emit(Op::Bin(id)),
        )
    }
}

/// The parts of a new object.
#[tactic(auto, unfolding(crate::specs::Parts::new_parts))]
pub fn new_parts(id: NodeId, binding: &Binding) -> Parts
    ensures { result ≡ new_parts id binding.now }
{
    match binding {
        Binding::Class(_) => Parts::three(
            Part::Emit(Op::Alloc(id)),
            all_items(id),
            Part::Emit(Op::Construct(id)),
        ),
        _ => Parts::one(all_items(id)),
    }
}

/// The part of the object on which a method is called.
#[tactic(auto, unfolding(crate::specs::Parts::receiver_part))]
fn receiver(id: NodeId, object: Option<NodeId>) -> Part
    ensures { result ≡ receiver_part id object }
{
    match object {
        None => Part::Emit(Op::This(id)),
        Some(object) => Part::Visit(object),
    }
}

/// The parts of a call of the framework.
#[tactic(auto, unfolding(crate::specs::Parts::builtin_parts))]
fn builtin_parts(id: NodeId, object: Option<NodeId>, method: MethodId) -> Parts
    ensures { result ≡ builtin_parts id object method }
{
    if method == MANAGED_MEMORY_ENTER_PRIVATE_MEMORY {
        Parts::two(all_items(id), Part::Emit(Op::Enter(id)))
    } else if method == MANAGED_MEMORY_EXECUTE_IN_AREA_OF {
        Parts::two(all_items(id), Part::Emit(Op::ExecuteIn(id)))
    } else if method == MANAGED_MEMORY_ALLOC_IN_SAME {
        Parts::two(all_items(id), Part::Emit(Op::Same(id)))
    } else if method == SERVICES_SET_CEILING {
        Parts::two(all_items(id), Part::Emit(Op::SetCeiling(id)))
    } else if method == TRACE_PRINT {
        Parts::two(all_items(id), Part::Emit(Op::Print(id)))
    } else if method == DEVICE_READ {
        Parts::two(all_items(id), Part::Emit(Op::Read(id)))
    } else if method == MISSION_REQUEST_TERMINATION {
        Parts::two(receiver(id, object), Part::Emit(Op::Terminate(id)))
    } else if method == APERIODIC_EVENT_HANDLER_RELEASE {
        Parts::two(receiver(id, object), Part::Emit(Op::Release(id)))
    } else if method == PERIODIC_EVENT_HANDLER_REGISTER
        || method == APERIODIC_EVENT_HANDLER_REGISTER
    {
        Parts::two(receiver(id, object), Part::Emit(Op::Register(id)))
    } else {
        Parts::none()
    }
}

/// The parts of a call.
#[tactic(auto, unfolding(crate::specs::Parts::call_parts))]
pub fn call_parts(id: NodeId, object: Option<NodeId>, binding: &Binding) -> Parts
    ensures { result ≡ call_parts id object binding.now }
{
    match binding {
        Binding::Method(_) => Parts::three(
            receiver(id, object),
            all_items(id),
            Part::Emit(Op::Call(id)),
        ),
        Binding::StaticMethod(_) => Parts::two(all_items(id), Part::Emit(Op::CallStatic(id))),
        Binding::Builtin(target) => builtin_parts(id, object, target.id),
        _ => Parts::none(),
    }
}
