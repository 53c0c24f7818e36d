//! The parts of constructors (JLS 8.8.7, 12.5).

ghost use Rattle.std.specs.Prelude.{◌≡◌, ◌≤◌, ◌+◌, ◌++◌, length};
ghost use Rattle.scj_model.specs.Code.{code_of};
ghost use Rattle.op_list.specs.Parts.{body_parts, constructor_parts, first_parts, super_parts, unwritten_super_parts};

use crate::calls::all_items;
use crate::code::Code;
use crate::facts::{has_form, is_user_class};
use crate::parts::{Part, Parts};
use scj_base::{ClassId, NodeId};
use scj_model::Op;
use scj_rules::Binding;

/// The parts of the call of a superclass's constructor.
#[tactic(auto, unfolding(crate::specs::Parts::super_parts))]
pub fn super_parts(id: NodeId, binding: &Binding) -> Parts
    ensures { result ≡ super_parts id binding.now }
{
    match binding {
        Binding::Class(superclass) => {
            if is_user_class(*superclass) {
                Parts::three(
                    Part::Emit(Op::This(id)),
                    all_items(id),
                    Part::Emit(Op::Super(id)),
                )
            } else if has_form(*superclass) {
                Parts::two(all_items(id), Part::Emit(Op::Params(id)))
            } else {
                Parts::none()
            }
        }
        _ => Parts::none(),
    }
}

/// The parts of the super part where it isn't written.
#[tactic(auto, unfolding(crate::specs::Parts::unwritten_super_parts))]
fn unwritten_super_parts(id: NodeId, binding: &Binding) -> Parts
    ensures value { result ≡ unwritten_super_parts id binding.now }
    ensures few { length result ≤ 2 }
{
    match binding {
        Binding::Class(superclass) => {
            if is_user_class(*superclass) {
                Parts::two(Part::Emit(Op::This(id)), Part::Emit(Op::Super(id)))
            } else if has_form(*superclass) {
                Parts::one(Part::Emit(Op::Params(id)))
            } else {
                Parts::none()
            }
        }
        _ => Parts::none(),
    }
}

/// The parts of the super part of a class's constructor.
#[tactic(auto, using(crate::proofs::CodeLemmas::program_is), unfolding(crate::specs::Parts::first_parts))]
fn first_parts(code: &Code<'_>, class: ClassId, super_call: Option<NodeId>) -> Parts
    ensures value { result ≡ first_parts (code_of code.now) class super_call }
    ensures few { length result ≤ 2 }
{
    match super_call {
        Some(call) => Parts::one(Part::Visit(call)),
        None => match code.layout().class_node(class) {
            None => Parts::none(),
            Some(node) => unwritten_super_parts(node, &code.binding(node)),
        },
    }
}

/// Puts the parts of the body, if one is written.
#[tactic(auto, unfolding(crate::specs::Parts::body_parts))]
fn put_body(parts: &mut Parts, body: Option<NodeId>)
    requires { length parts.old ≤ 3 }
    ensures { parts.new ≡ parts.old ++ body_parts body }
{
    if let Some(body) = body {
        parts.push(Part::Visit(body));
    }
    parts.push(Part::Emit(Op::Leave));
}

/// The parts of a constructor: the super part, the literals, the body.
#[tactic(auto, using(crate::proofs::CodeLemmas::program_is), unfolding(crate::specs::Parts::constructor_parts))]
pub fn constructor_parts(
    code: &Code<'_>,
    id: NodeId,
    super_call: Option<NodeId>,
    body: Option<NodeId>,
) -> Parts
    ensures { result ≡ constructor_parts (code_of code.now) id super_call body }
{
    match code.layout().class_of_body(id) {
        None => Parts::none(),
        Some(class) => {
            let mut parts = first_parts(code, class, super_call);
            parts.push(Part::Literals { index: 0, class });
            put_body(&mut parts, body);
            parts
        }
    }
}
