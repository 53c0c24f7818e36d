//! The value at one place of a list, and setting it. A place that isn't there stays away.

ghost use Rattle.std.specs.Prelude.{◌≡◌, slice_get, slice_set};

use scj_base::Value;

/// The value at a place, if there is one.
pub(crate) fn value_at(values: &[Value], index: usize) -> Option<Value>
    ensures { result ≡ slice_get values.now index }
{
    match values.get(index) {
        Some(value) => Some(*value),
        None => None,
    }
}

/// Sets the value at a place.
pub(crate) fn set_value(values: &mut Vec<Value>, index: usize, value: Value)
    ensures { values.new.items ≡ slice_set values.old.items index value }
{
    if index < values.len() {
        values[index] = value;
    }
}
