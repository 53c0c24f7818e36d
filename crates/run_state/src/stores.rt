//! Effects on the memory, each done to the state, and the activity put back.

ghost use Rattle.std.specs.Prelude.{◌≡◌, ◌∷◌, ◌^◌, ◌<◌, true, List, None, IfOk, length};
ghost use Rattle.scj_model.specs.declared.events.Event.{Event as EventOfRun};
ghost use Rattle.op_list.specs.Listed.{Listing};
ghost use Rattle.scj_model.specs.Memory.{new_elements};
ghost use Rattle.scj_model.specs.Effects.{Makes, SetsCeiling, SetsHidden, Stores, StoresStatic};
ghost use Rattle.region_heap.specs.Contents.{hidden_slots};
ghost use Rattle.job_frames.specs.declared.frames.Frame.{Frame as StoredFrame};
ghost use Rattle.job_frames.specs.Frames.{activity_seen, frame_of, frames_of};
ghost use Rattle.run_state.specs.Seen.{job_seen, state_of};
ghost use Rattle.run_state.specs.Calls.{made_or_full};
ghost use Rattle.run_state.specs.Standing.{CloseInOrder, IsAreaOfTop, IsTopOpen};
ghost use Rattle.run_state.specs.Steps.{IsApplied, IsStep};

use crate::ends::fault_in;
use crate::jobs::put_back;
use crate::memory::{make_array, make_object};
use crate::states::{Acting, Job, NewArray, NewObject, RunState};
use job_frames::Activity;
use scj_base::{AreaId, Memory, Ref, RunFault, Value};
use scj_model::Event;

/// It stores a value into a slot or an element.
pub fn stores(
    state: &mut RunState,
    acting: Acting,
    activity: Activity,
    r: Ref,
    slot: usize,
    value: Value,
) -> Result<(), Memory>
    ensures { (code : Listing) (reported : List EventOfRun) →
        IfOk result
        (λ _. IsApplied code state.old acting activity (λ f. Stores f r slot value) true state.new reported reported) }
{
    state.memory.set_slot(r, slot, value);
    put_back(state, acting.job, activity)?;
    Ok(())
}

/// It stores a value into a static field.
pub fn stores_static(
    state: &mut RunState,
    acting: Acting,
    activity: Activity,
    index: usize,
    value: Value,
) -> Result<(), Memory>
    ensures { (code : Listing) (reported : List EventOfRun) →
        IfOk result
        (λ _. IsApplied code state.old acting activity (λ f. StoresStatic f index value) true state.new reported reported) }
{
    state.memory.set_static(index, value);
    put_back(state, acting.job, activity)?;
    Ok(())
}

/// It sets the hidden fields of an object.
pub fn sets_hidden(
    state: &mut RunState,
    acting: Acting,
    activity: Activity,
    r: Ref,
    hidden: Vec<u64>,
) -> Result<(), Memory>
    ensures { (code : Listing) (reported : List EventOfRun) →
        IfOk result
        (λ _. IsApplied code state.old acting activity (λ f. SetsHidden f r (hidden_slots hidden.items)) true state.new
        reported reported) }
{
    state.memory.set_hidden(r, &hidden)?;
    put_back(state, acting.job, activity)?;
    Ok(())
}

/// It sets the ceiling of an object, which only the sequencer may.
pub fn sets_ceiling(
    state: &mut RunState,
    acting: Acting,
    activity: Activity,
    r: Ref,
    ceiling: u8,
    reported: &mut Vec<Event>,
) -> Result<(), Memory>
    requires { CloseInOrder state.old.memory activity.frames }
    ensures { (code : Listing) →
        IfOk result
        (λ _. IsApplied code state.old acting activity (λ f. SetsCeiling f r ceiling) true state.new reported.old.items
        reported.new.items) }
{
    match acting.job {
        Job::Sequencer => {
            state.memory.set_ceiling(r, ceiling);
            put_back(state, acting.job, activity)?;
            Ok(())
        }
        Job::Release(_) => {
            fault_in(
                state,
                acting,
                &activity,
                RunFault::NotInitializing,
                reported,
            )?;
            Ok(())
        }
    }
}

/// The area in which the highest frame makes objects.
fn area_of(activity: &Activity) -> Result<AreaId, Memory>
    ensures top { IfOk result (λ area. IsAreaOfTop activity.now.frames area) }
    ensures area { (f : StoredFrame) (below : List StoredFrame) → activity.now.frames ≡ f ∷ below →
        IfOk result (λ area. area ≡ f.area) }
{
    match activity.frames.top() {
        Some(frame) => Ok(frame.area),
        None => Err(Memory),
    }
}

/// What was made is the last operand of the highest frame; a fault where it wasn't made.
fn made(
    state: &mut RunState,
    acting: Acting,
    mut activity: Activity,
    made: Option<Ref>,
    reported: &mut Vec<Event>,
) -> Result<(), Memory>
    requires { made ≡ None → CloseInOrder state.old.memory activity.frames }
    ensures { (code : Listing) →
        (f : StoredFrame) (below : List StoredFrame) → activity.frames ≡ f ∷ below →
        IfOk result
        (λ _. IsStep code (made_or_full (state_of code state.old) (job_seen acting.job) (activity_seen code activity)
        (frame_of code f) (frames_of code below) acting.position made) state.new reported.old.items reported.new.items) }
{
    match made {
        Some(r) => {
            activity.frames.push_on_top(Value::At(r))?;
            put_back(state, acting.job, activity)?;
            Ok(())
        }
        None => {
            fault_in(state, acting, &activity, RunFault::MemoryFull, reported)?;
            Ok(())
        }
    }
}

/// It makes an object in its area.
pub fn makes(
    state: &mut RunState,
    acting: Acting,
    activity: Activity,
    object: NewObject,
    reported: &mut Vec<Event>,
) -> Result<(), Memory>
    requires open { IsTopOpen state.old.memory activity.frames }
    requires closes { CloseInOrder state.old.memory activity.frames }
    requires numbers { length state.old.memory.objects < 2 ^ 31 }
    ensures { (code : Listing) →
        IfOk result
        (λ _. IsApplied code state.old acting activity
        (λ f. Makes f object.class object.slots.items) true state.new
        reported.old.items reported.new.items) }
{
    let area = area_of(&activity)?;
    let found = make_object(state, area, &object);
    made(state, acting, activity, found, reported)?;
    Ok(())
}

/// It makes an array in its area.
pub fn makes_array(
    state: &mut RunState,
    acting: Acting,
    activity: Activity,
    array: NewArray,
    reported: &mut Vec<Event>,
) -> Result<(), Memory>
    requires open { IsTopOpen state.old.memory activity.frames }
    requires closes { CloseInOrder state.old.memory activity.frames }
    requires numbers { length state.old.memory.objects < 2 ^ 31 }
    ensures { (code : Listing) →
        IfOk result
        (λ _. IsApplied code state.old acting activity (λ f. Makes f array.class (new_elements array.kind array.count))
        true state.new reported.old.items reported.new.items) }
{
    let area = area_of(&activity)?;
    let found = make_array(state, area, array);
    made(state, acting, activity, found, reported)?;
    Ok(())
}
