//! The children of a node, whatever its kind.

ghost use Rattle.std.specs.Prelude.{◌≡◌, ◌∷◌, ◌++◌};
ghost use Rattle.scj_tree.specs.Parts.{ids_of};
ghost use Rattle.scj_tree.specs.Shape.{children, optional};

use crate::nodes::Node;
use scj_base::NodeId;

/// The children of a node, in the order of the source. Of `Four` and `Listed` those that stand singly may be missing.
#[derive(Clone, Copy)]
pub enum Parts<'a> {
    Nothing,
    One(NodeId),
    Two(NodeId, NodeId),
    Four(Option<NodeId>, Option<NodeId>, Option<NodeId>, Option<NodeId>),
    /// Two, and behind them those of a list.
    Listed(Option<NodeId>, Option<NodeId>, &'a [NodeId]),
}

/// A child that may be missing.
fn one_or_none<'a>(child: Option<NodeId>) -> Parts<'a>
    ensures { ids_of result ≡ optional child }
{
    match child {
        Some(child) => Parts::One(child),
        None => Parts::Nothing,
    }
}

/// A child between two that may be missing.
fn between<'a>(first: Option<NodeId>, second: NodeId, third: Option<NodeId>) -> Parts<'a>
    ensures { ids_of result ≡ optional first ++ (second ∷ optional third) }
{
    match third {
        None => match first {
            None => Parts::One(second),
            Some(first) => Parts::Two(first, second),
        },
        Some(third) => match first {
            None => Parts::Two(second, third),
            Some(first) => Parts::Four(None, Some(first), Some(second), Some(third)),
        },
    }
}

/// The children of a node.
#[tactic(auto, unfolding(crate::specs::Shape::children))]
pub fn parts_of(node: &Node) -> Parts<'_>
    ensures { ids_of result ≡ children node.now }
{
    match node {
        Node::Binary { left, right, .. } => Parts::Two(*left, *right),
        Node::Assign { target, value, .. } => Parts::Two(*target, *value),
        Node::Element { array, index, .. } => Parts::Two(*array, *index),
        Node::NewArray {
            element,
            length,
            ..
        } => Parts::Two(*element, *length),
        Node::While {
            condition,
            body,
            ..
        } => Parts::Two(*condition, *body),
        Node::DefineScope { first, second, .. } => Parts::Two(*first, *second),
        Node::ExpressionStatement { expression, .. } => Parts::One(*expression),
        Node::FieldAccess { object, .. } => Parts::One(*object),
        Node::Parenthesized { inner, .. } => Parts::One(*inner),
        Node::Unary { operand, .. } | Node::Cast { operand, .. } => Parts::One(*operand),
        Node::SuperType { argument, .. } | Node::ClassType { argument, .. } => {
            one_or_none(*argument)
        }
        Node::Return { value, .. } => one_or_none(*value),
        Node::Field {
            flags,
            declared_type,
            value,
            ..
        } => between(*flags, *declared_type, *value),
        Node::Parameter {
            flags,
            declared_type,
            ..
        }
        | Node::Local {
            flags,
            declared_type,
            ..
        } => between(*flags, *declared_type, None),
        Node::LocalWithValue {
            flags,
            declared_type,
            value,
            ..
        } => between(*flags, *declared_type, Some(*value)),
        Node::If {
            condition,
            then_part,
            else_part,
            ..
        } => between(Some(*condition), *then_part, *else_part),
        Node::For {
            first,
            condition,
            step,
            body,
            ..
        } => Parts::Four(Some(*first), Some(*condition), Some(*step), Some(*body)),
        Node::Flags {
            define_scope,
            scope,
            runs_in,
            ..
        } => Parts::Four(None, *define_scope, *scope, *runs_in),
        Node::Method {
            flags,
            result_type,
            parameters,
            body,
            ..
        } => Parts::Four(*flags, Some(*result_type), *parameters, *body),
        Node::Constructor {
            flags,
            parameters,
            super_call,
            body,
            ..
        } => Parts::Four(*flags, *parameters, *super_call, Some(*body)),
        Node::Block { statements, .. } => Parts::Listed(None, None, statements.items()),
        Node::Parameters { list, .. } => Parts::Listed(None, None, list.items()),
        Node::SuperCall { arguments, .. } | Node::New { arguments, .. } => {
            Parts::Listed(None, None, arguments.items())
        }
        Node::Call {
            object,
            arguments,
            ..
        } => Parts::Listed(None, *object, arguments.items()),
        Node::Supers {
            superclass,
            interfaces,
            ..
        } => Parts::Listed(None, *superclass, interfaces.items()),
        Node::Class {
            flags,
            header,
            members,
            ..
        } => Parts::Listed(*flags, *header, members.items()),
        _ => Parts::Nothing,
    }
}
