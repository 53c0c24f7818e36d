//! Numbers of the handlers, each at the place of the handler's number. There are none beyond the end, and each is 0.

ghost use Rattle.std.specs.Prelude.{◌≡◌, ◌<◌, ◌+◌, ℕ, IfOk, OnOk, length, slice_index, slice_set};
ghost use Rattle.run_releases.specs.Counts.{one_less};

use scj_base::Memory;

/// The number at a place.
pub(crate) fn number_at(numbers: &[u64], index: usize) -> u64
    ensures { result ≡ slice_index numbers.now index }
{
    if index < numbers.len() {
        numbers[index]
    } else {
        0
    }
}

/// Sets the number at a place that is there.
pub(crate) fn set_number(numbers: &mut Vec<u64>, index: usize, number: u64)
    ensures { numbers.new.items ≡ slice_set numbers.old.items index number }
{
    if index < numbers.len() {
        numbers[index] = number;
    }
}

/// Sees to it that a place is there. Each number stays.
pub(crate) fn reach(numbers: &mut Vec<u64>, index: usize) -> Result<(), Memory>
    ensures same { (k : ℕ) → slice_index numbers.new.items k ≡ slice_index numbers.old.items k }
    ensures there { OnOk result (index < length numbers.new.items) }
{
    while numbers.len() <= index {
        numbers.push(0)?;
    }
    Ok(())
}

/// The next number, if there is one.
pub(crate) fn one_more(number: u64) -> Result<u64, Memory>
    ensures { IfOk result (λ next. next ≡ number + 1) }
{
    match number.checked_add(1) {
        Some(next) => Ok(next),
        None => Err(Memory),
    }
}

/// Takes one from the number of a handler, if there is one.
pub(crate) fn take_one(numbers: &mut Vec<u64>, handler: Option<u8>)
    ensures { numbers.new.items ≡ one_less handler numbers.old.items }
{
    match handler {
        Some(handler) => {
            let index = handler as usize;
            let number = number_at(numbers, index).saturating_sub(1);
            set_number(numbers, index, number);
        },
        None => {},
    }
}
