//! Areas that are opened and objects that are made, where there is room for them.

ghost use Rattle.std.specs.Prelude.{◌≡◌, ◌^◌, ◌<◌, None, length, true};
ghost use Rattle.scj_base.specs.declared.positions.Position.{Position};
ghost use Rattle.scj_base.specs.declared.faults.RunFault.TheVariants.{MemoryFull, StoreFull};
ghost use Rattle.op_list.specs.Listed.{Listing};
ghost use Rattle.scj_model.specs.State.{Activity as ActivityOfRun, Job as JobOfRun};
ghost use Rattle.scj_model.specs.Memory.{new_elements};
ghost use Rattle.scj_model.specs.Steps.{allocating, fault_in, opening};
ghost use Rattle.region_heap.specs.Contents.{is_open_area, open_count};
ghost use Rattle.run_state.specs.Seen.{state_of};
ghost use Rattle.run_state.specs.Standing.{HasNumbers};
ghost use Rattle.run_state.specs.Steps.{GoesOn};

use crate::states::{NewArea, NewArray, NewObject, RunState};
use scj_base::{AreaId, Ref};
use value_operators::default_of;

/// Opens an area, if the store has room for it. Where it has none, nothing is changed, and there is a fault to tell.
pub fn open_area(state: &mut RunState, area: NewArea) -> Option<AreaId>
    requires numbers { HasNumbers state.old.memory }
    requires few { open_count state.old.memory < 1794 }
    ensures opened { (code : Listing) (job : JobOfRun) (activity : ActivityOfRun) (position : Position) →
        GoesOn (state_of code state.old)
        (opening (state_of code state.old) job activity position area.scope area.parent area.bytes)
        (fault_in (state_of code state.old) job activity position StoreFull) result (state_of code state.new) }
    ensures err { result ≡ None → state.new ≡ state.old }
{
    match state.memory.open_area(area.scope, area.parent, area.bytes) {
        Ok(opened) => Some(opened),
        Err(_full) => None,
    }
}

/// Makes an object, if its area has room for it. Where it has none, nothing is changed, and there is a fault to tell.
pub fn make_object(state: &mut RunState, area: AreaId, object: &NewObject) -> Option<Ref>
    requires open { is_open_area state.old.memory area ≡ true }
    requires numbers { length state.old.memory.objects < 2 ^ 31 }
    ensures made { (code : Listing) (job : JobOfRun) (activity : ActivityOfRun) (position : Position) →
        GoesOn (state_of code state.old)
        (allocating (state_of code state.old) job activity position object.now.class area object.now.slots.items)
        (fault_in (state_of code state.old) job activity position MemoryFull) result (state_of code state.new) }
    ensures err { result ≡ None → state.new ≡ state.old }
{
    match state.memory.alloc_object(object.class, area, &object.slots) {
        Ok(made) => Some(made),
        Err(_full) => None,
    }
}

/// Makes an array of elements that have the default of their kind, if its area has room for it. Where it has none,
/// nothing is changed, and there is a fault to tell.
pub fn make_array(state: &mut RunState, area: AreaId, array: NewArray) -> Option<Ref>
    requires open { is_open_area state.old.memory area ≡ true }
    requires numbers { length state.old.memory.objects < 2 ^ 31 }
    ensures made { (code : Listing) (job : JobOfRun) (activity : ActivityOfRun) (position : Position) →
        GoesOn (state_of code state.old)
        (allocating (state_of code state.old) job activity position array.class area (new_elements array.kind array.count))
        (fault_in (state_of code state.old) job activity position MemoryFull) result (state_of code state.new) }
    ensures err { result ≡ None → state.new ≡ state.old }
{
    let value = default_of(array.kind);
    match state
        .memory
        .alloc_array(array.class, area, array.count as usize, value)
    {
        Ok(made) => Some(made),
        Err(_full) => None,
    }
}
