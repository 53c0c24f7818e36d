//! The open areas.

ghost use Rattle.std.specs.Prelude.{◌≡◌, ℕ, IsTrue, None, Some, if◌then◌else◌, reverse, slice_get, ◌==◌};
ghost use Rattle.scj_rules.specs.Words.{holds};
ghost use Rattle.scj_model.specs.Memory.{area_with_scope};
ghost use Rattle.scj_model.specs.State.{State};
ghost use Rattle.region_heap.specs.Contents.{is_open_area, with_memory};
ghost use Rattle.region_heap.specs.OpenAreas.{open_areas};

use crate::finds::{row_at, row_of};
use crate::heaps::RegionHeap;
use scj_base::{AreaId, ScopeId};

/// An open area: the bytes of objects for which it has room, and those that its objects take.
#[derive(Clone, Copy, Debug, PartialEq, Eq)]
pub struct Area {
    pub name: ScopeId,
    pub bytes: u64,
    pub used: u64,
}

impl RegionHeap {
    /// The open area at a place in the order of opening, if so many are open.
    pub fn area(&self, i: usize) -> Option<Area>
        ensures { result ≡ slice_get (open_areas self.now.objects 0 self.now.areas) i }
    {
        match row_at(&self.areas, i) {
            Some(row) => Some(Area {
                name: row.scope,
                bytes: row.bytes,
                used: 8 * (row.mark - row.start) as u64,
            }),
            None => None,
        }
    }

    /// The area of this scope that was opened last, among open areas in the order in which they were opened.
    pub fn area_with_scope(&self, scope: ScopeId, opened: &[AreaId]) -> Option<AreaId>
        requires { (i a : ℕ) → slice_get opened.now i ≡ Some a → IsTrue (is_open_area self.now a) }
        ensures { (s : State) → result ≡ area_with_scope (with_memory s self.now) scope (reverse opened.now) }
    {
        let mut found = None;
        for area in opened {
            found = self.nearer(*area, scope, found);
        }
        found
    }

    /// The open area if it has the scope, and else the one that was found before.
    fn nearer(&self, area: AreaId, scope: ScopeId, found: Option<AreaId>) -> Option<AreaId>
        requires { IsTrue (is_open_area self.now area) }
        ensures { result
            ≡ (if holds (slice_get self.now.areas area) (λ x. x.scope == scope) then Some area else found) }
    {
        match row_of(&self.areas, area) {
            Some(k) => if self.areas[k].scope == scope {
                Some(area)
            } else {
                found
            },
            None => found,
        }
    }
}
