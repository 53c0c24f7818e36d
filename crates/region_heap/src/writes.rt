//! Objects that are written into words.

ghost use Rattle.std.specs.Prelude.{◌≡◌, ◌+◌, ◌≤◌, List, length, replicate};
ghost use Rattle.scj_base.specs.declared.values.Value.{Value as ValueOfRun};
ghost use Rattle.scj_model.specs.Apply.{with_ceiling};
ghost use Rattle.region_heap.specs.Contents.{with_value};
ghost use Rattle.region_heap.specs.Written.{IsBegun, IsChangedAt, IsLaid, IsObject};

use crate::reads::count_at;
use crate::words::{first_word, second_word, word_of};
use raw_words::RawWords;
use scj_base::{AreaId, ClassId, Value};

/// The ceiling of a new object, the highest priority.
const HIGHEST_PRIORITY: u8 = 28;

/// Writes the header of an object with so many slots.
fn lay_header(words: &mut RawWords, first: usize, class: ClassId, area: AreaId, count: usize)
    requires room { first + 2 + count ≤ length words.old }
    requires most { length words.old ≤ 8388608 }
    ensures { (slots : List ValueOfRun) → length slots ≡ count → IsBegun words.old first class area slots 0 words.new }
{
    words.write(first, first_word(class, area));
    words.write(first + 1, second_word(count, HIGHEST_PRIORITY));
}

/// Writes an object with these slots.
pub(crate) fn lay_object(
    words: &mut RawWords,
    first: usize,
    class: ClassId,
    area: AreaId,
    slots: &[Value],
)
    requires room { first + 2 + length slots.now ≤ length words.old }
    requires most { length words.old ≤ 8388608 }
    ensures { IsLaid words.old first class area slots.now words.new }
{
    let count = slots.len();
    lay_header(words, first, class, area, count);
    let mut i = 0;
    while i < count {
        words.write(first + 2 + i, word_of(slots[i]));
        i += 1;
    }
}

/// Writes an array of so many elements with one value.
pub(crate) fn lay_array(
    words: &mut RawWords,
    first: usize,
    class: ClassId,
    area: AreaId,
    count: usize,
    value: Value,
)
    requires room { first + 2 + count ≤ length words.old }
    requires most { length words.old ≤ 8388608 }
    ensures { IsLaid words.old first class area (replicate count value) words.new }
{
    lay_header(words, first, class, area, count);
    let word = word_of(value);
    let mut i = 0;
    while i < count {
        words.write(first + 2 + i, word);
        i += 1;
    }
}

/// Sets a slot of the object at a word, if the object has it.
pub(crate) fn set_slot_at(words: &mut RawWords, first: usize, slot: usize, value: Value)
    requires { IsObject words.old first }
    ensures { IsChangedAt words.old first (with_value slot value) words.new }
{
    if slot < count_at(words, first) {
        words.write(first + 2 + slot, word_of(value));
    }
}

/// Sets the ceiling of the object at a word.
pub(crate) fn set_ceiling_at(words: &mut RawWords, first: usize, ceiling: u8)
    requires { IsObject words.old first }
    ensures { IsChangedAt words.old first (with_ceiling ceiling) words.new }
{
    let count = count_at(words, first);
    words.write(first + 1, second_word(count, ceiling));
}
