//! The values of literals, and those with which variables begin.

ghost use Rattle.std.specs.Prelude.{◌≡◌};
ghost use Rattle.scj_model.specs.Memory.{default_value};

use scj_base::Value;
use scj_rules::SlotKind;

/// The value with which a field, an element or a local of a kind begins.
#[tactic(auto, unfolding(scj_model::specs::Memory::default_value))]
pub fn default_of(kind: SlotKind) -> Value
    ensures { result ≡ default_value kind }
{
    match kind {
        SlotKind::Number => Value::Int(0),
        SlotKind::Truth => Value::Bool(false),
        SlotKind::Reference => Value::Null,
    }
}
