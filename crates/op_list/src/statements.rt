//! The parts of statements and of the bodies of methods.

ghost use Rattle.std.specs.Prelude.{◌≡◌};
ghost use Rattle.op_list.specs.Parts.{assign_parts, dropped_parts, return_parts, method_parts};

use crate::parts::{Part, Parts};
use scj_base::NodeId;
use scj_model::Op;
use scj_rules::Binding;
use scj_tree::Node;

/// The parts of an assignment, by its target.
#[tactic(auto, unfolding(crate::specs::Parts::assign_parts))]
pub fn assign_parts(id: NodeId, value: NodeId, binding: &Binding, target: &Node) -> Parts
    ensures { result ≡ assign_parts id value binding.now target.now }
{
    match (binding, target) {
        (Binding::Local(_), Node::SimpleName { .. }) => {
            Parts::two(Part::Visit(value), Part::Emit(Op::Store(id)))
        }
        (Binding::Field(_), Node::SimpleName { .. }) => Parts::three(
            Part::Emit(Op::This(id)),
            Part::Visit(value),
            Part::Emit(Op::Put(id)),
        ),
        (Binding::Field(_), Node::FieldAccess { object, .. }) => Parts::three(
            Part::Visit(*object),
            Part::Visit(value),
            Part::Emit(Op::Put(id)),
        ),
        (Binding::Static(_), _) => Parts::two(Part::Visit(value), Part::Emit(Op::PutStatic(id))),
        (_, Node::Element { array, index, .. }) => Parts::four(
            Part::Visit(*array),
            Part::Visit(*index),
            Part::Visit(value),
            Part::Emit(Op::PutElem(id)),
        ),
        _ => Parts::none(),
    }
}

/// The parts of an expression that is a statement.
#[tactic(auto, unfolding(crate::specs::Parts::dropped_parts))]
pub fn dropped_parts(id: NodeId, expression: NodeId, leaves: bool) -> Parts
    ensures { result ≡ dropped_parts id expression leaves }
{
    if leaves {
        Parts::two(Part::Visit(expression), Part::Emit(Op::Drop(id)))
    } else {
        Parts::one(Part::Visit(expression))
    }
}

/// The parts of a `return`.
#[tactic(auto, unfolding(crate::specs::Parts::return_parts))]
pub fn return_parts(id: NodeId, value: Option<NodeId>) -> Parts
    ensures { result ≡ return_parts id value }
{
    match value {
        None => Parts::one(Part::Emit(Op::Leave)),
        Some(value) => Parts::two(Part::Visit(value), Part::Emit(Op::LeaveWith(id))),
    }
}

/// The parts of a method, with a result or without one.
#[tactic(auto, unfolding(crate::specs::Parts::method_parts))]
pub fn method_parts(is_void: bool, body: Option<NodeId>) -> Parts
    ensures { result ≡ method_parts is_void body }
{
    match body {
        None => Parts::none(),
        Some(body) => {
            if is_void {
                Parts::two(Part::Visit(body), Part::Emit(Op::Leave))
            } else {
                Parts::one(Part::Visit(body))
            }
        }
    }
}
