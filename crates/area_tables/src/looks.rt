//! Looks at the open areas of a memory.

ghost use Rattle.std.specs.Prelude.{◌≡◌, IfOk, OnOk, length};
ghost use Rattle.region_heap.specs.OpenAreas.{open_areas};
ghost use Rattle.scj_model.specs.Memory.{rounded_up};
ghost use Rattle.area_tables.specs.Rows.{all_used, reserved_by};

use crate::rows::{NeedRow, note_used};
use region_heap::RegionHeap;
use scj_base::Memory;

/// Notes what is in use in each open area, and answers how many there are.
pub(crate) fn note_all_used(rows: &mut Vec<NeedRow>, memory: &RegionHeap) -> Result<usize, Memory>
    ensures noted { OnOk result
        (rows.new.items ≡ all_used (open_areas memory.now.objects 0 memory.now.areas) rows.old.items) }
    ensures count { IfOk result (λ n. n ≡ length (open_areas memory.now.objects 0 memory.now.areas)) }
{
    let mut i: usize = 0;
    while let Some(area) = memory.area(i) {
        note_used(rows, area.name, area.used);
        let Some(next) = i.checked_add(1) else {
            return Err(Memory);
        };
        i = next;
    }
    Ok(i)
}

/// The bytes in whole words.
fn rounded_up(bytes: u64) -> Result<u64, Memory>
    ensures { IfOk result (λ n. n ≡ rounded_up bytes) }
{
    match bytes.checked_next_multiple_of(8) {
        Some(rounded) => Ok(rounded),
        None => Err(Memory),
    }
}

/// The bytes that the open areas reserve.
pub(crate) fn reserved_in(memory: &RegionHeap) -> Result<u64, Memory>
    ensures { IfOk result (λ n. n ≡ reserved_by (open_areas memory.now.objects 0 memory.now.areas)) }
{
    let mut reserved: u64 = 0;
    let mut i: usize = 0;
    while let Some(area) = memory.area(i) {
        let Some(more) = reserved.checked_add(rounded_up(area.bytes)?) else {
            return Err(Memory);
        };
        let Some(next) = i.checked_add(1) else {
            return Err(Memory);
        };
        reserved = more;
        i = next;
    }
    Ok(reserved)
}
