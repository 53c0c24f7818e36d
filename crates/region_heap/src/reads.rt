//! What is read of the object at a word.

ghost use Rattle.std.specs.Prelude.{◌≡◌, None, Some, IfOk, IsSomeAnd, IsTrue, OnErr, length, slice_get};
ghost use Rattle.scj_model.specs.Registry.{number_in};
ghost use Rattle.region_heap.specs.Words.{is_wide, object_in};
ghost use Rattle.region_heap.specs.Written.{IsObject};

use crate::words::{WideNumberError, area_in, ceiling_in, class_in, count_in, number_of, value_of};
use raw_words::RawWords;
use scj_base::{AreaId, ClassId, Value};

/// Its class.
#[tactic(auto, unfolding(crate::specs::Words::object_in))]
pub(crate) fn class_at(words: &RawWords, first: usize) -> ClassId
    requires { IsObject words.now first }
    ensures { result ≡ (object_in words.now first).class }
{
    class_in(words.read(first))
}

/// The area in which it lies.
#[tactic(auto, unfolding(crate::specs::Words::object_in))]
pub(crate) fn area_at(words: &RawWords, first: usize) -> AreaId
    requires { IsObject words.now first }
    ensures { result ≡ (object_in words.now first).area }
{
    area_in(words.read(first))
}

/// Its ceiling.
#[tactic(auto, unfolding(crate::specs::Words::object_in))]
pub(crate) fn ceiling_at(words: &RawWords, first: usize) -> u8
    requires { IsObject words.now first }
    ensures { result ≡ (object_in words.now first).ceiling }
{
    ceiling_in(words.read(first + 1))
}

/// How many slots it has.
#[tactic(auto, unfolding(crate::specs::Words::object_in), using(crate::proofs::Slots::object_count))]
pub(crate) fn count_at(words: &RawWords, first: usize) -> usize
    requires { IsObject words.now first }
    ensures { result ≡ length (object_in words.now first).slots }
{
    count_in(words.read(first + 1))
}

/// The value of a slot, if there is one. `Err` is for a number that is no int.
pub(crate) fn slot_at(
    words: &RawWords,
    first: usize,
    slot: usize,
) -> Result<Option<Value>, WideNumberError>
    requires { IsObject words.now first }
    ensures value { IfOk result (λ value. value ≡ slice_get (object_in words.now first).slots slot) }
    ensures wide { OnErr result
        (IsSomeAnd (slice_get (object_in words.now first).slots slot) (λ value. IsTrue (is_wide value))) }
{
    if slot >= count_in(words.read(first + 1)) {
        return Ok(None);
    }
    match value_of(words.read(first + 2 + slot)) {
        Ok(value) => Ok(Some(value)),
        Err(error) => Err(error),
    }
}

/// The number in a slot, and 0 where there is none.
pub(crate) fn number_at(words: &RawWords, first: usize, slot: usize) -> u64
    requires { IsObject words.now first }
    ensures { result
        ≡ (elim (slice_get (object_in words.now first).slots slot) [ None ↦ 0 | Some value ↦ number_in value ]) }
{
    if slot >= count_in(words.read(first + 1)) {
        return 0;
    }
    number_of(words.read(first + 2 + slot))
}
