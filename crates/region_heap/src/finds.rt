//! Looks among the rows of open areas and of their objects.

ghost use Rattle.std.specs.Prelude.{◌≡◌, ℕ, IfNone, IfSome, Some, slice_get};
ghost use Rattle.region_heap.specs.declared.rows.AreaRow.{AreaRow as RowOfArea};
ghost use Rattle.region_heap.specs.Rows.{AreInOrder, IsListed, IsNotListed, IsRowOf, end_after};

use crate::rows::{AreaRow, ObjectRow};
use scj_base::{AreaId, Ref};

/// Where the row of an area is, if it is open. Those opened last are looked at first.
pub(crate) fn row_of(areas: &[AreaRow], area: AreaId) -> Option<usize>
    ensures found { IfSome result (λ k. IsRowOf areas.now area k) }
    ensures none { IfNone result
        ((k : ℕ) (row : RowOfArea) → slice_get areas.now k ≡ Some row → row.area ≡ area → ⊥) }
{
    let mut left = areas.len();
    while left > 0 {
        left -= 1;
        if areas[left].area == area {
            return Some(left);
        }
    }
    None
}

/// The row at a place, if there is one.
pub(crate) fn row_at(areas: &[AreaRow], index: usize) -> Option<AreaRow>
    ensures { result ≡ slice_get areas.now index }
{
    match areas.get(index) {
        Some(row) => Some(*row),
        None => None,
    }
}

/// The first word behind those of all areas.
pub(crate) fn end_of(areas: &[AreaRow]) -> usize
    ensures { result ≡ end_after 0 areas.now }
{
    match areas.last() {
        Some(row) => row.end,
        None => 0,
    }
}

/// The first word of the object of a reference, if it is in the rows. The rows are halved until it is found, which
/// takes at most 23 steps in the largest store.
pub(crate) fn find(objects: &[ObjectRow], r: Ref) -> Option<usize>
    requires { AreInOrder objects.now }
    ensures found { IfSome result (λ first. IsListed objects.now r first) }
    ensures none { IfNone result (IsNotListed objects.now r) }
{
    let number = r.number();
    let mut low = 0;
    let mut high = objects.len();
    while low < high {
        let middle = low + (high - low) / 2;
        let row = objects[middle];
        if row.number == number {
            return Some(row.first as usize);
        }
        if row.number < number {
            low = middle + 1;
        } else {
            high = middle;
        }
    }
    None
}
