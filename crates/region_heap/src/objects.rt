//! Objects and arrays, as their words tell them.

ghost use Rattle.std.specs.Prelude.{◌≡◌, None, Some, IfOk, IsSomeAnd, IsTrue, OnErr, length, slice_get};
ghost use Rattle.scj_model.specs.Registry.{number_in};
ghost use Rattle.region_heap.specs.Words.{is_wide, object_in};
ghost use Rattle.region_heap.specs.Written.{IsObject};

use crate::reads::{area_at, ceiling_at, class_at, count_at, number_at, slot_at};
use crate::words::WideNumberError;
use raw_words::RawWords;
use scj_base::{AreaId, ClassId, Value};
use std::marker::Model;

/// An object or an array of an open area: its class, its area, its slots or elements, and its ceiling.
#[derive(Drop)]
pub struct Object<'a> {
    words: &'a RawWords,
    first: usize,
}

impl<'a> Model for Object<'a> {
    ghost use Rattle.scj_model.specs.State.{Object as ObjectOfState};
    ghost use Rattle.region_heap.specs.Words.{object_in};
    ghost use Rattle.region_heap.specs.Written.{IsObject};

    ghost Value = { ObjectOfState };

    ghost view = { λ a. object_in a.words.now a.first };

    ghost invariant = { λ a. IsObject a.words.now a.first };
}

impl<'a> Object<'a> {
    /// The object whose first word it is.
    pub(crate) fn at(words: &'a RawWords, first: usize) -> Object<'a>
        requires { IsObject words.now first }
        ensures { result ≡ object_in words.now first }
    {
        Object { words, first }
    }

    /// The class.
    pub fn class(&self) -> ClassId
        ensures { result ≡ self.now.class }
    {
        class_at(self.words, self.first)
    }

    /// The area in which it lies.
    pub fn area(&self) -> AreaId
        ensures { result ≡ self.now.area }
    {
        area_at(self.words, self.first)
    }

    /// The ceiling.
    pub fn ceiling(&self) -> u8
        ensures { result ≡ self.now.ceiling }
    {
        ceiling_at(self.words, self.first)
    }

    /// How many slots it has, with the hidden ones.
    pub fn len(&self) -> usize
        ensures { result ≡ length self.now.slots }
    {
        count_at(self.words, self.first)
    }

    /// The value of a slot, counted with the hidden ones, if there is one. `Err` is for a number that is no int.
    pub fn slot(&self, slot: usize) -> Result<Option<Value>, WideNumberError>
        ensures value { IfOk result (λ value. value ≡ slice_get self.now.slots slot) }
        ensures wide { OnErr result (IsSomeAnd (slice_get self.now.slots slot) (λ value. IsTrue (is_wide value))) }
    {
        slot_at(self.words, self.first, slot)
    }

    /// The number in a slot, counted with the hidden ones: of an int its absolute value, and 0 where there is none.
    pub fn number_at(&self, slot: usize) -> u64
        ensures { result ≡ (elim (slice_get self.now.slots slot) [ None ↦ 0 | Some value ↦ number_in value ]) }
    {
        number_at(self.words, self.first, slot)
    }
}
