//! Rows of objects that are given up when an area closes.

ghost use Rattle.std.specs.Prelude.{◌≡◌, ◌<◌, ◌≤◌, ℕ, Some, filter, length, slice_get, vec_capacity};
ghost use Rattle.region_heap.specs.declared.rows.ObjectRow.{ObjectRow as RowOfObject};
ghost use Rattle.region_heap.specs.Rows.{begins_below};

use crate::rows::ObjectRow;

/// Keeps the rows of those objects that begin below a word, as the first `base` do.
pub(crate) fn keep_below(objects: &mut Vec<ObjectRow>, base: usize, start: usize)
    requires within { base ≤ length objects.old.items }
    requires below { (i : ℕ) (x : RowOfObject) → i < base → slice_get objects.old.items i ≡ Some x → x.first < start }
    ensures kept { objects.new.items ≡ filter (begins_below start) objects.old.items }
    ensures capacity { vec_capacity objects.new ≡ vec_capacity objects.old }
{
    let count = objects.len();
    let mut kept = base;
    let mut i = base;
    while i < count {
        let row = objects[i];
        if (row.first as usize) < start {
            objects[kept] = row;
            kept += 1;
        }
        i += 1;
    }
    objects.truncate(kept);
}
