//! Hidden fields, which are numbers that may be no int in the first slots of an object.

ghost use Rattle.std.specs.Prelude.{◌≡◌, ◌+◌, ◌<◌, ◌≤◌, ℕ, Some, OnErr, OnOk, is_ok, length, nat_lt, not, slice_get};
ghost use Rattle.std.specs.List.{list_any};
ghost use Rattle.scj_model.specs.Apply.{with_first};
ghost use Rattle.region_heap.specs.Contents.{changing_object, hidden_slots, live_object};
ghost use Rattle.region_heap.specs.Refusals.{AllowsHidden, RefusesHidden};
ghost use Rattle.region_heap.specs.Rows.{AreInOrder};
ghost use Rattle.region_heap.specs.Words.{count_in, object_in, refuses_hidden, wide_limit, word};
ghost use Rattle.region_heap.specs.Written.{AreObjects, IsChangedAt, IsChangedIn, IsObject};

use crate::changes::Change;
use crate::finds::find;
use crate::heaps::RegionHeap;
use crate::reads::count_at;
use crate::rows::ObjectRow;
use crate::words::{WIDE_LIMIT, word_of_number};
use raw_words::RawWords;
use scj_base::{Memory, Ref};

/// An object has no slots for hidden fields, or one of them is too large a number.
#[derive(Clone, Copy, Debug, PartialEq, Eq)]
pub struct HiddenFieldsError;

impl From<HiddenFieldsError> for Memory {
    fn from(_error: HiddenFieldsError) -> Memory {
        Memory
    }
}

/// Whether one of these numbers is too large for a slot.
fn is_one_too_large(hidden: &[u64]) -> bool
    ensures { result ≡ list_any (λ n. not (nat_lt n wide_limit)) hidden.now }
{
    hidden.iter().any(|n| *n >= WIDE_LIMIT)
}

/// Writes these numbers into the first slots of the object at a word.
fn put_numbers(words: &mut RawWords, first: usize, hidden: &[u64])
    requires object { IsObject words.old first }
    requires count { length hidden.now ≤ count_in (word words.old (first + 1)) }
    requires small { (i n : ℕ) → slice_get hidden.now i ≡ Some n → n < wide_limit }
    ensures { IsChangedAt words.old first (with_first (hidden_slots hidden.now)) words.new }
{
    let count = hidden.len();
    let mut i = 0;
    while i < count {
        words.write(first + 2 + i, word_of_number(hidden[i]));
        i += 1;
    }
}

/// Sets the hidden fields of the object at a word.
fn set_hidden_at(
    words: &mut RawWords,
    first: usize,
    hidden: &[u64],
) -> Result<(), HiddenFieldsError>
    requires { IsObject words.old first }
    ensures set { OnOk result (IsChangedAt words.old first (with_first (hidden_slots hidden.now)) words.new) }
    ensures err { OnErr result (words.new ≡ words.old) }
    ensures refuses { is_ok result ≡ not (refuses_hidden (Some (object_in words.old first)) hidden.now) }
{
    if count_at(words, first) < hidden.len() {
        return Err(HiddenFieldsError);
    }
    if is_one_too_large(hidden) {
        return Err(HiddenFieldsError);
    }
    put_numbers(words, first, hidden);
    Ok(())
}

/// Sets the hidden fields of the object of a reference, if it is listed.
fn set_hidden_in(
    words: &mut RawWords,
    objects: &[ObjectRow],
    r: Ref,
    hidden: &[u64],
) -> Result<(), HiddenFieldsError>
    requires order { AreInOrder objects.now }
    requires objects { AreObjects words.old objects.now }
    ensures set { OnOk result (IsChangedIn words.old objects.now r (with_first (hidden_slots hidden.now)) words.new) }
    ensures err { OnErr result (words.new ≡ words.old) }
    ensures allows { OnOk result (AllowsHidden words.old objects.now r hidden.now) }
    ensures refuses { OnErr result (RefusesHidden words.old objects.now r hidden.now) }
{
    let Some(first) = find(objects, r) else {
        return Ok(());
    };
    match set_hidden_at(words, first, hidden) {
        Ok(_set) => Ok(()),
        Err(error) => Err(error),
    }
}

impl RegionHeap {
    /// Sets the hidden fields of an object, if there is one. `Err` is for an object with fewer slots, and for a number
    /// that is too large for a slot.
    pub fn set_hidden(&mut self, r: Ref, hidden: &[u64]) -> Result<(), HiddenFieldsError>
        ensures set { OnOk result (self.new ≡ changing_object self.old r (with_first (hidden_slots hidden.now))) }
        ensures err { OnErr result (self.new ≡ self.old) }
        ensures refuses { is_ok result ≡ not (refuses_hidden (live_object self.old r) hidden.now) }
    {
        set_hidden_in(&mut self.words, &self.objects, r, hidden)?;
        let change = Change::SetHidden { r, hidden };
        self.history = self.history.then(&change);
        Ok(())
    }
}
