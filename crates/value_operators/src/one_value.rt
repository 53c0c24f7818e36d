//! The operators on one value.

ghost use Rattle.std.specs.Prelude.{◌≡◌};
ghost use Rattle.scj_model.specs.Arithmetic.{unary_value};

use scj_base::{Value, vocabulary};

/// What the operator gives of one value.
#[tactic(auto, unfolding(scj_model::specs::Arithmetic::unary_value))]
pub fn unary(operator: u8, operand: Value) -> Option<Value>
    ensures { result ≡ unary_value operator operand }
{
    match (operator, operand) {
        (vocabulary::MINUS, Value::Int(x)) => Some(Value::Int(x.wrapping_neg())),
        (vocabulary::TILDE, Value::Int(x)) => Some(Value::Int(!x)),
        (vocabulary::NOT, Value::Bool(b)) => Some(Value::Bool(!b)),
        _ => None,
    }
}
