//! The values of literals.

ghost use Rattle.std.specs.Prelude.{◌≡◌, ◌<◌, ◌≤◌, true, false, pos, neg_ℤ};
ghost use Rattle.scj_base.specs.Lexeme.{greatest_number};
ghost use Rattle.scj_rules.specs.Definitions.{read};
ghost use Rattle.scj_model.specs.Memory.{literal_value};
ghost use Rattle.value_operators.specs.Literals.{HasInt};

use scj_base::{NodeId, Value};
use scj_rules::Checked;
use scj_tree::Node;

/// The int of a number without a `-`.
fn positive(number: u32) -> i32
    requires { number < greatest_number }
    ensures { result ≡ pos number }
{
    number as i32
}

/// The int of a number behind its `-`: 2147483648 makes one too.
fn negative(number: u32) -> i32
    requires { number ≤ greatest_number }
    ensures { result ≡ neg_ℤ (pos number) }
{
    -i64::from(number) as i32
}

/// The value of a literal that has an int, if it has one.
#[tactic(auto, unfolding(scj_model::specs::Memory::literal_value, crate::specs::Literals::HasInt))]
fn value_of(literal: &Node) -> Option<Value>
    requires { HasInt literal.now }
    ensures { result ≡ literal_value literal.now }
{
    match literal {
        Node::Number {
            value,
            is_negative: true,
            ..
        } => Some(Value::Int(negative(*value))),
        Node::Number { value, .. } => Some(Value::Int(positive(*value))),
        Node::True { .. } => Some(Value::Bool(true)),
        Node::False { .. } => Some(Value::Bool(false)),
        Node::Null { .. } => Some(Value::Null),
        _ => None,
    }
}

/// The value of the literal at a node of a checked program, if the node is a literal.
pub fn literal(checked: &Checked, node: NodeId) -> Option<Value>
    ensures { result ≡ read checked.now.program.nodes literal_value node }
{
    match checked.program().get(node) {
        Some(literal) => value_of(literal),
        None => None,
    }
}
