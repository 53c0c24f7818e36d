//! Equality of two values.

ghost use Rattle.std.specs.Prelude.{◌≡◌};
ghost use Rattle.scj_model.specs.Arithmetic.{are_equal};

use scj_base::Value;

/// Whether two values of one kind are the same.
#[tactic(auto, unfolding(scj_model::specs::Arithmetic::are_equal))]
pub fn are_equal(left: Value, right: Value) -> Option<bool>
    ensures { result ≡ are_equal left right }
{
    match left {
        Value::Int(x) => match right {
            Value::Int(y) => Some(x == y),
            _ => None,
        },
        Value::Bool(a) => match right {
            Value::Bool(b) => Some(a == b),
            _ => None,
        },
        Value::Null => match right {
            Value::Null => Some(true),
            Value::At(_) => Some(false),
            _ => None,
        },
        Value::At(r) => match right {
            Value::Null => Some(false),
            Value::At(q) => Some(r == q),
            _ => None,
        },
    }
}
