//! The memory of a run.

ghost use Rattle.std.specs.Prelude.{◌≡◌, ◌≤◌, [], IfOk, slice_get};
ghost use Rattle.scj_model.specs.Apply.{with_ceiling};
ghost use Rattle.region_heap.specs.Contents.{changing_object, live_object, setting_static, with_value};

use crate::changes::Change;
use crate::finds::find;
use crate::history::History;
use crate::indices::{set_value, value_at};
use crate::objects::Object;
use crate::rows::{AreaRow, ObjectRow};
use crate::sets::{set_ceiling_in, set_slot_in};
use raw_words::RawWords;
use scj_base::{Memory, Ref, Value};
use std::alloc::Global;
use std::marker::Model;

/// The most areas that are open at once: immortal memory, mission memory, and one for each frame of each started
/// release.
const MOST_AREAS: usize = 1794;

/// The memory of a run: the words, the open areas, their objects, the static fields, how many areas and objects there
/// were, and all of them, which proofs alone know.
#[derive(Drop)]
pub struct RegionHeap {
    pub(crate) store: u64,
    pub(crate) words: RawWords,
    pub(crate) areas: Vec<AreaRow>,
    pub(crate) objects: Vec<ObjectRow>,
    pub(crate) area_count: u32,
    pub(crate) object_count: u32,
    statics: Vec<Value>,
    pub(crate) history: History,
}

impl Model for RegionHeap {
    ghost use Rattle.std.specs.Prelude.{◌≡◌, ◌/◌, vec_capacity};
    ghost use Rattle.region_heap.specs.Contents.{Contents};
    ghost use Rattle.region_heap.specs.Kept.{IsCounted, IsKept};

    ghost Value = { Contents };

    ghost view = { λ a. a.history.past.contents };

    ghost invariant = { λ a. IsKept a.words a.areas.items a.objects.items a.history.past
        × IsCounted a.store a.area_count a.object_count a.statics.items a.words a.history.past.contents
        × (vec_capacity a.areas ≡ 1794) × (vec_capacity a.objects ≡ a.store / 16) };
}

impl RegionHeap {
    /// A memory with these static fields and no area or object, in a store of so many bytes. All of its memory is taken
    /// here.
    pub fn make(alloc: Global, store: u64, statics: Vec<Value>) -> Result<RegionHeap, Memory>
        requires { store ≤ 67108864 }
        ensures { IfOk result
            (λ heap. heap ≡ record { store = store; areas = []; objects = []; statics = statics.items }) }
    {
        let words = RawWords::make(alloc, (store / 8) as usize)?;
        let areas = Vec::with_capacity(alloc, MOST_AREAS)?;
        let objects = Vec::with_capacity(alloc, (store / 16) as usize)?;
        let nothing = History::new();
        let change = Change::Begun {
            store,
            statics: statics.as_slice(),
        };
        let history = nothing.then(&change);
        Ok(RegionHeap {
            store,
            words,
            areas,
            objects,
            area_count: 0,
            object_count: 0,
            statics,
            history,
        })
    }

    /// The object of a reference, if the area in which it lies is open.
    pub fn object(&self, r: Ref) -> Option<Object<'_>>
        ensures { result ≡ live_object self.now r }
    {
        match find(&self.objects, r) {
            Some(first) => Some(Object::at(&self.words, first)),
            None => None,
        }
    }

    /// The static field at a place, if there is one.
    pub fn static_field(&self, index: usize) -> Option<Value>
        ensures { result ≡ slice_get self.now.statics index }
    {
        value_at(&self.statics, index)
    }

    /// Sets a slot of an object. What isn't there stays away.
    pub fn set_slot(&mut self, r: Ref, slot: usize, value: Value)
        ensures { self.new ≡ changing_object self.old r (with_value slot value) }
    {
        set_slot_in(&mut self.words, &self.objects, r, slot, value);
        let change = Change::SetSlot {
            r,
            slot,
            value: &value,
        };
        self.history = self.history.then(&change);
    }

    /// Sets the ceiling of an object, if there is one.
    pub fn set_ceiling(&mut self, r: Ref, ceiling: u8)
        ensures { self.new ≡ changing_object self.old r (with_ceiling ceiling) }
    {
        let change = Change::SetCeiling { r, ceiling };
        set_ceiling_in(&mut self.words, &self.objects, r, ceiling);
        self.history = self.history.then(&change);
    }

    /// Sets the static field at a place, if there is one.
    pub fn set_static(&mut self, index: usize, value: Value)
        ensures { self.new ≡ setting_static self.old index value }
    {
        set_value(&mut self.statics, index, value);
        let change = Change::SetStatic {
            index,
            value: &value,
        };
        self.history = self.history.then(&change);
    }
}
