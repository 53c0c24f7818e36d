//! Areas that the sequencer opens for itself, and the safelet that it makes in one (JSR 302: Safelet, Mission).

ghost use Rattle.std.specs.Prelude.{◌≡◌, ◌<◌, ◌^◌, true, IfOk, length};
ghost use Rattle.scj_rules.specs.Bodies.{class_position};
ghost use Rattle.scj_model.specs.Code.{code_of};
ghost use Rattle.op_list.specs.Listed.{Listing};
ghost use Rattle.scj_model.specs.Sequencer.{area_opened, safelet_made};
ghost use Rattle.region_heap.specs.Contents.{is_open_area, open_count};
ghost use Rattle.run_state.specs.Seen.{state_of};
ghost use Rattle.run_state.specs.Standing.{HasNumbers};
ghost use Rattle.run_state.specs.Steps.{IsStep};

use crate::bodies::new_object;
use crate::looks::class_position;
use op_list::OpList;
use run_state::ends::halted;
use run_state::memory::{make_object, open_area};
use run_state::{NewArea, RunState};
use scj_base::{AreaId, ClassId, Memory, Position, RunFault, ScopeId, Value};
use scj_model::Event;
use std::alloc::Global;

/// An area is opened inside the innermost one of the sequencer's. The sequencer has it from now on.
pub(crate) fn open_inside(
    state: &mut RunState,
    position: Position,
    scope: ScopeId,
    bytes: u32,
    reported: &mut Vec<Event>,
) -> Result<(), Memory>
    requires numbers { HasNumbers state.old.memory }
    requires few { open_count state.old.memory < 1794 }
    ensures { (code : Listing) →
        IfOk result
        (λ _. IsStep code (area_opened (state_of code state.old) position scope bytes) state.new reported.old.items
        reported.new.items) }
{
    let parent = state.activity.areas.innermost();
    match open_area(
        state,
        NewArea {
            scope,
            parent,
            bytes: bytes as u64,
        },
    ) {
        Some(area) => {
            state.activity.areas.push(area)?;
            state.outcome = Some(Value::Null);
            Ok(())
        }
        None => {
            halted(state, position, RunFault::StoreFull, reported)?;
            Ok(())
        }
    }
}

/// The safelet is made in an area. Its reference is the value of the operation.
pub(crate) fn make_safelet(
    alloc: Global,
    code: &OpList<'_>,
    state: &mut RunState,
    class: ClassId,
    area: AreaId,
    reported: &mut Vec<Event>,
) -> Result<(), Memory>
    requires open { is_open_area state.old.memory area ≡ true }
    requires numbers { length state.old.memory.objects < 2 ^ 31 }
    ensures { IfOk result
        (λ _. IsStep code.now
        (safelet_made (code_of code.now.program) (state_of code.now state.old)
        (class_position (code_of code.now.program).program class) class area) state.new reported.old.items reported.new.items) }
{
    let object = new_object(alloc, code, class)?;
    match make_object(state, area, &object) {
        Some(r) => {
            state.outcome = Some(Value::At(r));
            Ok(())
        }
        None => {
            halted(
                state,
                class_position(code, class),
                RunFault::MemoryFull,
                reported,
            )?;
            Ok(())
        }
    }
}
