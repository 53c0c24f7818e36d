//! Changes of the object of a reference, where it is listed.

ghost use Rattle.scj_model.specs.Apply.{with_ceiling};
ghost use Rattle.region_heap.specs.Contents.{with_value};
ghost use Rattle.region_heap.specs.Rows.{AreInOrder};
ghost use Rattle.region_heap.specs.Written.{AreObjects, IsChangedIn};

use crate::finds::find;
use crate::rows::ObjectRow;
use crate::writes::{set_ceiling_at, set_slot_at};
use raw_words::RawWords;
use scj_base::{Ref, Value};

/// Sets a slot.
pub(crate) fn set_slot_in(
    words: &mut RawWords,
    objects: &[ObjectRow],
    r: Ref,
    slot: usize,
    value: Value,
)
    requires order { AreInOrder objects.now }
    requires objects { AreObjects words.old objects.now }
    ensures { IsChangedIn words.old objects.now r (with_value slot value) words.new }
{
    match find(objects, r) {
        Some(first) => set_slot_at(words, first, slot, value),
        None => {}
    }
}

/// Sets the ceiling.
pub(crate) fn set_ceiling_in(words: &mut RawWords, objects: &[ObjectRow], r: Ref, ceiling: u8)
    requires order { AreInOrder objects.now }
    requires objects { AreObjects words.old objects.now }
    ensures { IsChangedIn words.old objects.now r (with_ceiling ceiling) words.new }
{
    match find(objects, r) {
        Some(first) => set_ceiling_at(words, first, ceiling),
        None => {}
    }
}
