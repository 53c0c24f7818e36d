//! The operators on two values.

ghost use Rattle.std.specs.Prelude.{◌≡◌, false};
ghost use Rattle.scj_base.specs.declared.values.Value.TheVariants.{Int};
ghost use Rattle.scj_model.specs.Arithmetic.{binary_value, divides_by_zero, of_ints};

use crate::equality::are_equal;
use crate::integers::{comparison, int_of};
use scj_base::{Value, vocabulary};

/// Whether the operator on such a right operand is a division or a remainder by zero, which is a fault.
#[tactic(auto, unfolding(scj_model::specs::Arithmetic::is_zero))]
pub fn divides_by_zero(operator: u8, right: Value) -> bool
    ensures { result ≡ divides_by_zero operator right }
{
    match operator {
        vocabulary::SLASH | vocabulary::PERCENT => right == Value::Int(0),
        _ => false,
    }
}

/// What the operator gives of two ints.
#[tactic(auto, unfolding(scj_model::specs::Arithmetic::of_ints, scj_model::specs::Arithmetic::is_zero))]
fn of_ints(operator: u8, x: i32, y: i32) -> Option<Value>
    requires { divides_by_zero operator (Int y) ≡ false }
    ensures { result ≡ of_ints operator x y }
{
    match int_of(operator, x, y) {
        Some(n) => Some(Value::Int(n)),
        None => comparison(operator, x, y).map(Value::Bool),
    }
}

/// What the operator gives of two values, where it divides by no zero.
#[tactic(auto, unfolding(scj_model::specs::Arithmetic::binary_value, scj_model::specs::Arithmetic::on_ints))]
pub fn binary(operator: u8, left: Value, right: Value) -> Option<Value>
    requires { divides_by_zero operator right ≡ false }
    ensures { result ≡ binary_value operator left right }
{
    match operator {
        vocabulary::EQUAL => are_equal(left, right).map(Value::Bool),
        vocabulary::NOT_EQUAL => are_equal(left, right).map(|b| Value::Bool(!b)),
        _ => match (left, right) {
            (Value::Int(x), Value::Int(y)) => of_ints(operator, x, y),
            _ => None,
        },
    }
}
