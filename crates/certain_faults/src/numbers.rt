//! Tests of numbers that are known.

ghost use Rattle.std.specs.Prelude.{◌≡◌, not, pos, is_some};
ghost use Rattle.std.specs.Int.{is_negative};
ghost use Rattle.scj_model.specs.Operations.{is_port, is_priority, units_of};
ghost use Rattle.certain_faults.specs.Faults.{known_number, is_known};

use crate::facts::is_nanoseconds;
use crate::known::Known;
use scj_base::Value;
use value_operators::framework_numbers::{is_port, is_priority};

/// The number, where it is known.
#[tactic(auto, unfolding(crate::specs::Faults::known_number))]
pub fn known_number(known: Known) -> Option<i32>
    ensures { result ≡ known_number known }
{
    match known {
        Known::Exactly(Value::Int(number)) => Some(number),
        _ => None,
    }
}

/// Whether a number is known and negative.
#[tactic(auto, unfolding(crate::specs::Faults::is_known))]
pub fn is_negative(known: Known) -> bool
    ensures { result ≡ is_known is_negative known }
{
    match known {
        Known::Exactly(Value::Int(number)) => number < 0,
        _ => false,
    }
}

/// Whether a number is known and no port.
#[tactic(auto, unfolding(crate::specs::Faults::is_known))]
pub fn is_no_port(known: Known) -> bool
    ensures { result ≡ is_known (λ z. not (is_port z)) known }
{
    match known {
        Known::Exactly(Value::Int(number)) => !is_port(number),
        _ => false,
    }
}

/// Whether a number is known and no priority.
#[tactic(auto, unfolding(crate::specs::Faults::is_known))]
pub fn is_no_priority(known: Known) -> bool
    ensures { result ≡ is_known (λ z. not (is_priority z)) known }
{
    match known {
        Known::Exactly(Value::Int(number)) => !is_priority(number),
        _ => false,
    }
}

/// Whether the nanoseconds are known and those of no time.
#[tactic(auto, unfolding(crate::specs::Faults::is_known))]
pub fn is_no_nanoseconds(known: Known) -> bool
    ensures { result ≡ is_known (λ z. not (is_some (units_of (pos 0) z))) known }
{
    match known {
        Known::Exactly(Value::Int(number)) => !is_nanoseconds(number),
        _ => false,
    }
}
