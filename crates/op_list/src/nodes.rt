//! The parts of a node.

ghost use Rattle.std.specs.Prelude.{◌≡◌};
ghost use Rattle.scj_model.specs.Code.{code_of};
ghost use Rattle.op_list.specs.Parts.{assignment_parts, node_parts, parts_at};
ghost use Rattle.op_list.specs.Parts.{items_at, items_of};

use crate::calls::{access_parts, all_items, binary_parts, call_parts, name_parts, new_parts};
use crate::code::Code;
use crate::constructors::{constructor_parts, super_parts};
use crate::facts::{is_void, leaves_value};
use crate::parts::{Part, Parts};
use crate::statements::{assign_parts, dropped_parts, method_parts, return_parts};
use scj_base::NodeId;
use scj_model::Op;
use scj_tree::Node;

/// The parts of an assignment, by its target, if there is one.
#[tactic(auto, using(crate::proofs::CodeLemmas::nodes_are), unfolding(crate::specs::Parts::assignment_parts))]
fn assignment_parts(code: &Code<'_>, id: NodeId, target: NodeId, value: NodeId) -> Parts
    ensures { result ≡ assignment_parts (code_of code.now) id target value }
{
    match code.node(target) {
        None => Parts::none(),
        Some(node) => assign_parts(id, value, &code.binding(target), node),
    }
}

/// The parts of a node.
#[tactic(auto, using(crate::proofs::CodeLemmas::nodes_are), unfolding(crate::specs::Parts::node_parts))]
fn node_parts(code: &Code<'_>, id: NodeId, node: &Node) -> Parts
    ensures { result ≡ node_parts (code_of code.now) id node.now }
{
    match node {
        Node::Number { .. } => Parts::one(Part::Emit(Op::Push(id))),
        Node::True { .. } => Parts::one(Part::Emit(Op::Push(id))),
        Node::False { .. } => Parts::one(Part::Emit(Op::Push(id))),
        Node::Null { .. } => Parts::one(Part::Emit(Op::Push(id))),
        Node::This { .. } => Parts::one(Part::Emit(Op::This(id))),
        Node::SimpleName { .. } => name_parts(id, &code.binding(id)),
        Node::FieldAccess { object, .. } => access_parts(id, *object, &code.binding(id)),
        Node::Element { array, index, .. } => Parts::three(
            Part::Visit(*array),
            Part::Visit(*index),
            Part::Emit(Op::Elem(id)),
        ),
        Node::Parenthesized { inner, .. } => Parts::one(Part::Visit(*inner)),
        Node::Unary { operand, .. } => {
            Parts::two(Part::Visit(*operand), Part::Emit(Op::Unary(id)))
        }
        Node::Binary {
            operator,
            left,
            right,
            ..
        } => binary_parts(id, *operator, *left, *right),
        Node::New { .. } => new_parts(id, &code.binding(id)),
        Node::NewArray { length, .. } => {
            Parts::two(Part::Visit(*length), Part::Emit(Op::AllocArray(id)))
        }
        Node::Call { object, .. } => call_parts(id, *object, &code.binding(id)),
        Node::Cast { operand, .. } => Parts::two(Part::Visit(*operand), Part::Emit(Op::Cast(id))),
        Node::Local { .. } => Parts::one(Part::Emit(Op::Zero(id))),
        Node::LocalWithValue { value, .. } => {
            Parts::two(Part::Visit(*value), Part::Emit(Op::Store(id)))
        }
        Node::Assign { target, value, .. } => assignment_parts(code, id, *target, *value),
        Node::ExpressionStatement { expression, .. } => {
            dropped_parts(id, *expression, leaves_value(&code.binding(*expression)))
        }
        Node::Block { .. } => Parts::one(all_items(id)),
        Node::If { condition, .. } => Parts::two(Part::Visit(*condition), Part::Emit(Op::If(id))),
        Node::While { condition, .. } => {
            Parts::two(Part::Visit(*condition), Part::Emit(Op::Loop(id)))
        }
        Node::For {
            first,
            condition,
            ..
        } => Parts::three(
            Part::Visit(*first),
            Part::Visit(*condition),
            Part::Emit(Op::Loop(id)),
        ),
        Node::Return { value, .. } => return_parts(id, *value),
        Node::Method {
            result_type,
            body,
            ..
        } => method_parts(is_void(code.program(), *result_type), *body),
        Node::SuperCall { .. } => super_parts(id, &code.binding(id)),
        Node::Constructor {
            super_call,
            body,
            ..
        } => constructor_parts(code, id, *super_call, Some(*body)),
        Node::Class { .. } => constructor_parts(code, id, None, None),
        Node::Flags { .. }
        | Node::DefineScope { .. }
        | Node::ScopeName { .. }
        | Node::Supers { .. }
        | Node::SuperType { .. }
        | Node::TypeArgument { .. }
        | Node::IntType { .. }
        | Node::BooleanType { .. }
        | Node::ClassType { .. }
        | Node::VoidType { .. }
        | Node::LongType { .. }
        | Node::Field { .. }
        | Node::Parameters { .. }
        | Node::Parameter { .. }
        | Node::Empty { .. }
        | Node::Text { .. } => Parts::none(),
    }
}

/// The parts of the node of a number.
#[tactic(auto, using(crate::proofs::CodeLemmas::nodes_are), unfolding(crate::specs::Parts::parts_at))]
pub fn parts_at(code: &Code<'_>, id: NodeId) -> Parts
    ensures { result ≡ parts_at (code_of code.now) id }
{
    match code.node(id) {
        None => Parts::none(),
        Some(node) => node_parts(code, id, node),
    }
}

/// The parts of a node that stand in a list: statements and arguments.
#[tactic(auto, unfolding(crate::specs::Parts::items_of))]
fn items_of(node: &Node) -> &[NodeId]
    ensures { result.now ≡ items_of node.now }
{
    match node {
        Node::SuperCall { arguments, .. } => arguments.items(),
        Node::Block { statements, .. } => statements.items(),
        Node::Call { arguments, .. } => arguments.items(),
        Node::New { arguments, .. } => arguments.items(),
        _ => &[],
    }
}

/// The same of the node of a number.
#[tactic(auto, unfolding(crate::specs::Parts::items_at))]
pub fn items_at<'a>(code: &Code<'a>, id: NodeId) -> &'a [NodeId]
    ensures { result.now ≡ items_at code.now.nodes id }
{
    match code.node(id) {
        None => &[],
        Some(node) => items_of(node),
    }
}
