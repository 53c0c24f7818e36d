//! What the operations of each kind of node leave, by what its parts leave.

ghost use Rattle.std.specs.Prelude.{◌≡◌, Some, None, slice_get};
ghost use Rattle.scj_tree.specs.Recursion.{lookup};
ghost use Rattle.scj_model.specs.Code.{code_of, binding, part};
ghost use Rattle.scj_model.specs.Memory.{literal_value};
ghost use Rattle.certain_faults.specs.declared.known.Left.TheVariants.{Forgets as forgets};
ghost use Rattle.certain_faults.specs.declared.known.Known.TheVariants.{Unknown as unknown, Exactly as exactly};
ghost use Rattle.certain_faults.specs.Known.{known, unary_known, binary_known, operator_known, left_by_literal, in_place_of, in_place_of_two, left_by_name, left_by_access, leaves_one, all_leave_one, end_to_end, left_by_part, left_by_new, left_by_node, next_left};

use crate::calls::call_left;
use crate::facts::binding;
use crate::known::{Known, Left};
use scj_base::{NodeId, Value, vocabulary};
use scj_rules::{Binding, Checked};
use scj_tree::Node;
use value_operators::{binary, divides_by_zero, literal, unary};

/// What is told of a node so far: nothing of one that isn't before it.
pub fn left_at(rows: &[Left], id: NodeId) -> Left
    ensures { result ≡ lookup forgets rows.now id }
{
    match rows.get(id.number()) {
        Some(left) => *left,
        None => Left::Forgets,
    }
}

/// The value, where there is one.
#[tactic(auto, unfolding(crate::specs::Known::known))]
fn known(value: Option<Value>) -> Known
    ensures { result ≡ known value }
{
    match value {
        Some(value) => Known::Exactly(value),
        None => Known::Unknown,
    }
}

/// What an operator gives of one constant.
#[tactic(auto, unfolding(crate::specs::Known::unary_known))]
fn unary_known(operator: u8, operand: Known) -> Known
    ensures { result ≡ unary_known operator operand }
{
    match operand {
        Known::Exactly(value) => known(unary(operator, value)),
        _ => Known::Unknown,
    }
}

/// What an operator gives of two values.
#[tactic(auto, unfolding(crate::specs::Known::binary_known))]
fn value_known(operator: u8, left: Value, right: Value) -> Known
    ensures { result ≡ binary_known operator (exactly left) (exactly right) }
{
    let divisor = right;
    if divides_by_zero(operator, divisor) {
        return Known::Unknown;
    }
    known(binary(operator, left, right))
}

/// What an operator gives of two constants.
#[tactic(auto, unfolding(crate::specs::Known::operator_known, crate::specs::Known::binary_known))]
fn operator_known(operator: u8, left: Known, right: Known) -> Known
    ensures { result ≡ operator_known operator left right }
{
    if operator == vocabulary::AND_AND || operator == vocabulary::OR_OR {
        return Known::Unknown;
    }
    match left {
        Known::Exactly(x) => match right {
            Known::Exactly(y) => value_known(operator, x, y),
            _ => Known::Unknown,
        },
        _ => Known::Unknown,
    }
}

/// One operand in the place of one that is left.
#[tactic(auto, unfolding(crate::specs::Known::in_place_of))]
pub fn in_place_of(left: Left, value: Known) -> Left
    ensures { result ≡ in_place_of left (λ a. value) }
{
    match left {
        Left::One(_) => Left::One(value),
        _ => Left::Forgets,
    }
}

/// One operand of which nothing is known in the place of two that are left.
#[tactic(auto, unfolding(crate::specs::Known::in_place_of_two))]
pub fn unknown_in_place_of_two(first: Left, second: Left) -> Left
    ensures { result ≡ in_place_of_two first second (λ a b. unknown) }
{
    match (first, second) {
        (Left::One(_), Left::One(_)) => Left::One(Known::Unknown),
        _ => Left::Forgets,
    }
}

/// What an operator on one operand leaves.
#[tactic(auto, unfolding(crate::specs::Known::in_place_of))]
fn unary_left(operator: u8, operand: Left) -> Left
    ensures { result ≡ in_place_of operand (unary_known operator) }
{
    match operand {
        Left::One(a) => Left::One(unary_known(operator, a)),
        _ => Left::Forgets,
    }
}

/// What an operator on two operands leaves.
#[tactic(auto, unfolding(crate::specs::Known::in_place_of_two))]
fn binary_left(operator: u8, left: Left, right: Left) -> Left
    ensures { result ≡ in_place_of_two left right (operator_known operator) }
{
    match (left, right) {
        (Left::One(a), Left::One(b)) => Left::One(operator_known(operator, a, b)),
        _ => Left::Forgets,
    }
}

/// What a literal leaves.
#[tactic(auto, unfolding(crate::specs::Known::left_by_literal, scj_model::specs::Code::code_of, scj_rules::specs::Contexts::declarations_of))]
fn literal_left(checked: &Checked, id: NodeId) -> Left
    ensures { result ≡ left_by_literal (part (code_of checked.now.program) literal_value id) }
{
    match literal(checked, id) {
        Some(value) => Left::One(Known::Exactly(value)),
        None => Left::Forgets,
    }
}

/// What a name leaves.
#[tactic(auto, unfolding(crate::specs::Known::left_by_name))]
fn name_left(binding: Binding) -> Left
    ensures { result ≡ left_by_name binding }
{
    match binding {
        Binding::Local(_) | Binding::Field(_) | Binding::Static(_) => Left::One(Known::Unknown),
        _ => Left::Forgets,
    }
}

/// What an access leaves.
#[tactic(auto, unfolding(crate::specs::Known::left_by_access))]
fn access_left(binding: Binding, object: Left) -> Left
    ensures { result ≡ left_by_access binding object }
{
    match binding {
        Binding::Field(_) | Binding::Length => in_place_of(object, Known::Unknown),
        Binding::Static(_) => Left::One(Known::Unknown),
        _ => Left::Forgets,
    }
}

/// Whether each of the nodes leaves one operand.
#[tactic(auto, unfolding(crate::specs::Known::leaves_one))]
pub fn all_leave_one(rows: &[Left], nodes: &[NodeId]) -> bool
    ensures { result ≡ all_leave_one (lookup forgets rows.now) nodes.now }
{
    nodes.iter().all(|node| leaves_one(left_at(rows, *node)))
}

/// Whether one operand is left.
#[tactic(auto, unfolding(crate::specs::Known::leaves_one))]
pub fn leaves_one(left: Left) -> bool
    ensures { result ≡ leaves_one left }
{
    matches!(left, Left::One(_))
}

/// What two parts of a form leave together.
#[tactic(auto, unfolding(crate::specs::Known::end_to_end))]
fn end_to_end(first: Left, second: Left) -> Left
    ensures { result ≡ end_to_end first second }
{
    match (first, second) {
        (Left::One(a), Left::One(b)) => Left::Two(a, b),
        (Left::Two(a, b), Left::Two(c, d)) => Left::Four(a, b, c, d),
        _ => Left::Forgets,
    }
}

/// What a part of a form leaves.
#[tactic(auto, unfolding(crate::specs::Known::left_by_part))]
fn part_left(rows: &[Left], arguments: &[NodeId]) -> Left
    ensures { result ≡ left_by_part (lookup forgets rows.now) arguments.now }
{
    match arguments {
        [] => Left::Zero,
        [x] => left_at(rows, *x),
        [x, y] => end_to_end(left_at(rows, *x), left_at(rows, *y)),
        _ => Left::Forgets,
    }
}

/// What a new object, or a part of a form, leaves.
#[tactic(auto, unfolding(crate::specs::Known::left_by_new))]
fn new_left(rows: &[Left], arguments: &[NodeId], binding: Binding) -> Left
    ensures { result ≡ left_by_new (lookup forgets rows.now) arguments.now binding }
{
    match binding {
        Binding::Class(_) => {
            if all_leave_one(rows, arguments) {
                Left::One(Known::Object)
            } else {
                Left::Forgets
            }
        }
        _ => part_left(rows, arguments),
    }
}

/// What the operations of a node leave, by what those of its parts leave.
#[tactic(auto, unfolding(crate::specs::Known::left_by_node, scj_model::specs::Code::code_of, scj_rules::specs::Contexts::declarations_of))]
fn left_by_node(checked: &Checked, rows: &[Left], id: NodeId, node: &Node) -> Left
    ensures { result ≡ left_by_node (code_of checked.now.program) (lookup forgets rows.now) id node.now }
{
    match node {
        Node::Number { .. } | Node::True { .. } | Node::False { .. } | Node::Null { .. } => {
            literal_left(checked, id)
        }
        Node::This { .. } => Left::One(Known::Object),
        Node::SimpleName { .. } => name_left(binding(checked, id)),
        Node::FieldAccess { object, .. } => {
            access_left(binding(checked, id), left_at(rows, *object))
        }
        Node::Element { array, index, .. } => {
            unknown_in_place_of_two(left_at(rows, *array), left_at(rows, *index))
        }
        Node::Parenthesized { inner, .. } => left_at(rows, *inner),
        Node::Unary {
            operator,
            operand,
            ..
        } => unary_left(*operator, left_at(rows, *operand)),
        Node::Binary {
            operator,
            left,
            right,
            ..
        } => binary_left(*operator, left_at(rows, *left), left_at(rows, *right)),
        Node::New { arguments, .. } => new_left(rows, arguments.items(), binding(checked, id)),
        Node::NewArray { length, .. } => in_place_of(left_at(rows, *length), Known::Object),
        Node::Cast { operand, .. } => in_place_of(left_at(rows, *operand), Known::Unknown),
        Node::Call {
            object,
            arguments,
            ..
        } => call_left(rows, *object, arguments.items(), binding(checked, id)),
        _ => Left::Forgets,
    }
}

/// What the operations of the node of a number leave, by what those of the nodes before it leave.
#[tactic(auto, unfolding(crate::specs::Known::next_left, scj_model::specs::Code::code_of, scj_rules::specs::Contexts::declarations_of))]
pub fn next_left(checked: &Checked, rows: &[Left], id: NodeId) -> Left
    ensures { result ≡ next_left (code_of checked.now.program) id (lookup forgets rows.now) }
{
    match checked.program().get(id) {
        Some(node) => left_by_node(checked, rows, id, node),
        None => Left::Forgets,
    }
}
