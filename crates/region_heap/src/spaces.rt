//! Areas that are opened and closed, and whether there is room.

ghost use Rattle.std.specs.Prelude.{◌≡◌, ◌*◌, ◌^◌, ◌<◌, ◌≤◌, ◌+◌, ◌++◌, ◌∷◌, [], IfErr, IfOk, IsTrue, OnErr, OnOk, is_ok, length, vec_capacity, vec_len};
ghost use Rattle.scj_model.specs.Memory.{has_room, has_store_for, reserved, rounded_up};
ghost use Rattle.scj_model.specs.State.{State};
ghost use Rattle.region_heap.specs.Contents.{IsLastOpen, closing_area, is_open_area, open_count, opening_area, with_memory};
ghost use Rattle.region_heap.specs.Rows.{HasRow, IsRowOf, end_after};
ghost use Rattle.region_heap.specs.Spaces.{AreMarked, HasRoomAt, IsFull, IsPushed};

use crate::changes::Change;
use crate::compactions::keep_below;
use crate::counts::{object_bytes, object_fits, store_fits, words_bytes};
use crate::finds::{end_of, row_of};
use crate::heaps::RegionHeap;
use crate::rows::AreaRow;
use scj_base::{AreaId, ScopeId};

/// The store has no room for an area.
#[derive(Clone, Copy, Debug, PartialEq, Eq)]
pub struct StoreFull {
    /// The bytes that the open areas reserve.
    pub reserved: u64,
    /// The bytes of the area in whole words, or the largest number where they are more.
    pub asked: u64,
}

/// An area has no room for an object.
#[derive(Clone, Copy, Debug, PartialEq, Eq)]
pub struct MemoryFull {
    /// The bytes that the objects of the area take.
    pub used: u64,
    /// The bytes of the object, or the largest number where they are more.
    pub asked: u64,
}

/// The bytes that areas reserve.
fn reserved_of(areas: &[AreaRow]) -> u64
    requires { end_after 0 areas.now ≤ 8388608 }
    ensures { result ≡ 8 * end_after 0 areas.now }
{
    8 * end_of(areas) as u64
}

/// Where the row of an open area is that has room for an object with so many slots.
pub(crate) fn room_in(areas: &[AreaRow], area: AreaId, count: usize) -> Result<usize, MemoryFull>
    requires row { HasRow areas.now area }
    requires marks { AreMarked areas.now }
    ensures room { IfOk result (λ k. HasRoomAt areas.now area count k) }
    ensures full { IfErr result (λ e. IsFull areas.now area count e.used e.asked) }
{
    match row_of(areas, area) {
        Some(k) => room_at(areas, area, count, k),
        None => Err(MemoryFull { used: 0, asked: 0 }),
    }
}

/// The same, at the place of the area's row.
fn room_at(areas: &[AreaRow], area: AreaId, count: usize, k: usize) -> Result<usize, MemoryFull>
    requires row { IsRowOf areas.now area k }
    requires marks { AreMarked areas.now }
    ensures room { IfOk result (λ k. HasRoomAt areas.now area count k) }
    ensures full { IfErr result (λ e. IsFull areas.now area count e.used e.asked) }
{
    let row = areas[k];
    let used = 8 * (row.mark - row.start) as u64;
    if object_fits(used, count, row.bytes) {
        Ok(k)
    } else {
        Err(MemoryFull {
            used,
            asked: object_bytes(count),
        })
    }
}

/// Puts a row of an area behind the others. Its words follow those of the areas that are open.
fn push_area(areas: &mut Vec<AreaRow>, area: AreaId, scope: ScopeId, bytes: u64, base: usize)
    requires room { vec_len areas.old < vec_capacity areas.old }
    requires words { 8 * end_after 0 areas.old.items + rounded_up bytes ≤ 67108864 }
    ensures pushed { IsPushed areas.old.items area scope bytes base areas.new.items }
    ensures capacity { vec_capacity areas.new ≡ vec_capacity areas.old }
{
    let start = end_of(areas);
    let end = start + (words_bytes(bytes) / 8) as usize;
    areas.push_reserved(AreaRow {
        area,
        scope,
        bytes,
        start,
        mark: start,
        end,
        base,
    });
}

/// Takes the row of the area that was opened last.
fn pop_area(areas: &mut Vec<AreaRow>) -> AreaRow
    requires { 0 < vec_len areas.old }
    ensures popped { areas.old.items ≡ areas.new.items ++ result ∷ [] }
    ensures capacity { vec_capacity areas.new ≡ vec_capacity areas.old }
{
    match areas.pop() {
        Some(row) => row,
        None => unreachable!(),
    }
}

impl RegionHeap {
    /// Whether an object with so many slots has room in an open area.
    pub fn has_room(&self, area: AreaId, count: usize) -> bool
        requires { IsTrue (is_open_area self.now area) }
        ensures { (s : State) → result ≡ has_room (with_memory s self.now) area count }
    {
        match room_in(&self.areas, area, count) {
            Ok(_index) => true,
            Err(_full) => false,
        }
    }

    /// Opens an area inside another one.
    pub fn open_area(
        &mut self,
        scope: ScopeId,
        parent: Option<AreaId>,
        bytes: u64,
    ) -> Result<AreaId, StoreFull>
        requires numbers { length self.old.areas < 2 ^ 31 }
        requires few { open_count self.old < 1794 }
        ensures number { IfOk result (λ area. area ≡ length self.old.areas) }
        ensures opened { OnOk result (self.new ≡ opening_area self.old scope parent bytes) }
        ensures err { OnErr result (self.new ≡ self.old) }
        ensures full { (s : State) → is_ok result ≡ has_store_for (with_memory s self.old) bytes }
        ensures reserved { IfErr result (λ e. (s : State) → e.reserved ≡ reserved (with_memory s self.old)) }
        ensures asked { IfErr result (λ e. rounded_up bytes < 2 ^ 64 → e.asked ≡ rounded_up bytes) }
    {
        let reserved = reserved_of(&self.areas);
        if !store_fits(reserved, bytes, self.store) {
            return Err(StoreFull {
                reserved,
                asked: words_bytes(bytes),
            });
        }
        let area = self.area_count;
        let base = self.objects.len();
        push_area(&mut self.areas, AreaId::at(area), scope, bytes, base);
        self.area_count = area + 1;
        let change = Change::Opened {
            scope,
            parent,
            bytes,
        };
        self.history = self.history.then(&change);
        Ok(AreaId::at(area))
    }

    /// Closes the area that was opened last among those that are open. Its words are forgotten, and so are the rows of
    /// its objects.
    pub fn close_top(&mut self, area: AreaId)
        requires { IsLastOpen self.old area }
        ensures { self.new ≡ closing_area self.old area }
    {
        let row = pop_area(&mut self.areas);
        self.words.forget_from(row.start);
        keep_below(&mut self.objects, row.base, row.start);
        let change = Change::Closed { area };
        self.history = self.history.then(&change);
    }
}
