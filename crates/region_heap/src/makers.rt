//! Objects that are made.

ghost use Rattle.std.specs.Prelude.{◌≡◌, ◌^◌, ◌<◌, IfErr, IfOk, IsTrue, OnErr, OnOk, is_ok, length, replicate, vec_capacity, vec_len};
ghost use Rattle.scj_rules.specs.Layout.{size_with_slots};
ghost use Rattle.scj_model.specs.Memory.{has_room, used};
ghost use Rattle.scj_model.specs.State.{State};
ghost use Rattle.region_heap.specs.Contents.{is_open_area, making_object, with_memory};
ghost use Rattle.region_heap.specs.Spaces.{HasWordsAt, IsMarkAt, IsNoted};

use crate::changes::Change;
use crate::heaps::RegionHeap;
use crate::rows::{AreaRow, ObjectRow};
use crate::spaces::{MemoryFull, room_in};
use crate::writes::{lay_array, lay_object};
use scj_base::{AreaId, ClassId, Ref, Value};

/// Notes in the rows that an object with so many slots lies from the mark of an area on.
fn note_object(
    areas: &mut Vec<AreaRow>,
    objects: &mut Vec<ObjectRow>,
    k: usize,
    number: u32,
    count: usize,
)
    requires there { k < length areas.old.items }
    requires words { HasWordsAt areas.old.items k count }
    requires room { vec_len objects.old < vec_capacity objects.old }
    ensures noted { IsNoted areas.old.items objects.old.items k number count areas.new.items objects.new.items }
    ensures areas { vec_capacity areas.new ≡ vec_capacity areas.old }
    ensures objects { vec_capacity objects.new ≡ vec_capacity objects.old }
{
    let row = areas[k];
    areas[k] = AreaRow {
        area: row.area,
        scope: row.scope,
        bytes: row.bytes,
        start: row.start,
        mark: row.mark + 2 + count,
        end: row.end,
        base: row.base,
    };
    objects.push_reserved(ObjectRow {
        number,
        first: row.mark as u32,
    });
}

/// The first free word of the area of a row.
fn mark_at(areas: &[AreaRow], k: usize) -> usize
    requires { k < length areas.now }
    ensures { IsMarkAt areas.now k result }
{
    areas[k].mark
}

impl RegionHeap {
    /// Makes an object with these slots in an open area. Its ceiling is the highest priority.
    pub fn alloc_object(
        &mut self,
        class: ClassId,
        area: AreaId,
        slots: &[Value],
    ) -> Result<Ref, MemoryFull>
        requires open { IsTrue (is_open_area self.old area) }
        requires numbers { length self.old.objects < 2 ^ 31 }
        ensures number { IfOk result (λ r. r ≡ length self.old.objects) }
        ensures made { OnOk result (self.new ≡ making_object self.old class area slots.now) }
        ensures err { OnErr result (self.new ≡ self.old) }
        ensures room { (s : State) → is_ok result ≡ has_room (with_memory s self.old) area (length slots.now) }
        ensures used { IfErr result (λ e. (s : State) → e.used ≡ used (with_memory s self.old) area) }
        ensures asked { IfErr result
            (λ e. size_with_slots (length slots.now) < 2 ^ 64 → e.asked ≡ size_with_slots (length slots.now)) }
    {
        let count = slots.len();
        let k = room_in(&self.areas, area, count)?;
        let first = mark_at(&self.areas, k);
        lay_object(&mut self.words, first, class, area, slots);
        let number = self.object_count;
        note_object(&mut self.areas, &mut self.objects, k, number, count);
        self.object_count = number + 1;
        let change = Change::Made {
            class,
            area,
            slots,
            first,
        };
        self.history = self.history.then(&change);
        Ok(Ref::at(number))
    }

    /// Makes an array of so many elements with one value in an open area. Its ceiling is the highest priority.
    pub fn alloc_array(
        &mut self,
        class: ClassId,
        area: AreaId,
        count: usize,
        value: Value,
    ) -> Result<Ref, MemoryFull>
        requires open { IsTrue (is_open_area self.old area) }
        requires numbers { length self.old.objects < 2 ^ 31 }
        ensures number { IfOk result (λ r. r ≡ length self.old.objects) }
        ensures made { OnOk result (self.new ≡ making_object self.old class area (replicate count value)) }
        ensures err { OnErr result (self.new ≡ self.old) }
        ensures room { (s : State) → is_ok result ≡ has_room (with_memory s self.old) area count }
        ensures used { IfErr result (λ e. (s : State) → e.used ≡ used (with_memory s self.old) area) }
        ensures asked { IfErr result (λ e. size_with_slots count < 2 ^ 64 → e.asked ≡ size_with_slots count) }
    {
        let k = room_in(&self.areas, area, count)?;
        let first = mark_at(&self.areas, k);
        lay_array(&mut self.words, first, class, area, count, value);
        let number = self.object_count;
        note_object(&mut self.areas, &mut self.objects, k, number, count);
        self.object_count = number + 1;
        let change = Change::MadeArray {
            class,
            area,
            count,
            value: &value,
            first,
        };
        self.history = self.history.then(&change);
        Ok(Ref::at(number))
    }
}
