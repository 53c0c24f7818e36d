//! Calls in a new area (JSR 302: ManagedMemory).

ghost use Rattle.std.specs.Prelude.{◌≡◌, ◌∷◌, ◌<◌, ℕ, true, IfOk, OnOk, Some, is_some};
ghost use Rattle.scj_rules.specs.Words.{is_among};
ghost use Rattle.region_heap.specs.Contents.{is_open_area, open_count};
ghost use Rattle.op_list.specs.Listed.{Listing};
ghost use Rattle.scj_model.specs.State.{Frame as FrameOfRun};
ghost use Rattle.scj_model.specs.Memory.{area_with_scope};
ghost use Rattle.scj_model.specs.Apply.{opened_in};
ghost use Rattle.job_frames.specs.declared.activities.Activity.{Activity as StoredActivity};
ghost use Rattle.job_frames.specs.Frames.{activity_seen, below, frames_of};
ghost use Rattle.run_state.specs.Seen.{job_seen, state_of};
ghost use Rattle.run_state.specs.Calls.{call_opened};
ghost use Rattle.run_state.specs.Standing.{CloseInOrder, HasNumbers, StandsIn, below_top};
ghost use Rattle.run_state.specs.Steps.{HasOnTop, IsStep};

use crate::calls::{refused, was_full};
use crate::jobs::put_back;
use crate::memory::open_area;
use crate::states::{Acting, NewArea, RunState};
use crate::tops::move_into;
use job_frames::Activity;
use scj_base::{AreaId, Memory, RunFault, ScopeId};
use scj_model::Event;

/// Whether the job has an area of this scope open.
fn is_cycle(state: &RunState, activity: &Activity, scope: ScopeId) -> bool
    requires { (a : ℕ) → is_among a activity.now.areas ≡ true → is_open_area state.now.memory a ≡ true }
    ensures { (code : Listing) → result ≡ is_some (area_with_scope (state_of code state.now) scope activity.now.areas) }
{
    state
        .memory
        .area_with_scope(scope, activity.areas.in_order())
        .is_some()
}

/// The frame on top has opened an area, and makes its objects there.
fn move_in(activity: &mut Activity, area: AreaId) -> Result<(), Memory>
    ensures moved { (code : Listing) (g : FrameOfRun) (before : StoredActivity) → HasOnTop code g before activity.old →
        OnOk result
        (activity_seen code activity.new ≡ record
        (activity_seen code before) {
          frames = record g { area = area; opened = Some area }
              ∷ frames_of code before.frames;
          areas = area ∷ before.areas;
        }) }
{
    move_into(&mut activity.frames, area);
    activity.areas.push(area)?;
    Ok(())
}

/// The area in which the frame on top makes objects.
fn area_on_top(activity: &Activity) -> Option<AreaId>
    ensures { (code : Listing) (g : FrameOfRun) (before : StoredActivity) → HasOnTop code g before activity.now →
        result ≡ Some g.area }
{
    match activity.frames.top() {
        Some(frame) => Some(frame.area),
        None => None,
    }
}

/// The frame on top of the others is called in a new area inside its own, if the store has room for it.
fn opened_on_top(
    state: &mut RunState,
    acting: Acting,
    mut activity: Activity,
    area: NewArea,
    reported: &mut Vec<Event>,
) -> Result<(), Memory>
    requires numbers { HasNumbers state.old.memory }
    requires few { open_count state.old.memory < 1794 }
    requires closes { CloseInOrder state.old.memory (below activity.frames) }
    ensures { (code : Listing) (g : FrameOfRun) (before : StoredActivity) → HasOnTop code g before activity →
        IfOk result
        (λ _. IsStep code (call_opened (state_of code state.old) (job_seen acting.job) (activity_seen code before)
        (frames_of code before.frames) acting.position g area.scope area.parent area.bytes) state.new reported.old.items
        reported.new.items) }
{
    match open_area(state, area) {
        Some(opened) => {
            move_in(&mut activity, opened)?;
            put_back(state, acting.job, activity)?;
            Ok(())
        }
        None => {
            refused(state, acting, activity, RunFault::StoreFull, reported)?;
            Ok(())
        }
    }
}

/// A call whose frame is on top of the others, in a new area inside the caller's.
pub fn opened_in(
    state: &mut RunState,
    acting: Acting,
    activity: Activity,
    scope: ScopeId,
    bytes: u64,
    reported: &mut Vec<Event>,
) -> Result<(), Memory>
    requires numbers { HasNumbers state.old.memory }
    requires stands { StandsIn state.old.memory (below_top activity) }
    ensures { (code : Listing) (g : FrameOfRun) (before : StoredActivity) → HasOnTop code g before activity →
        IfOk result
        (λ _. IsStep code (opened_in (state_of code state.old) (job_seen acting.job) (activity_seen code before)
        (frames_of code before.frames) acting.position g scope bytes) state.new reported.old.items reported.new.items) }
{
    if is_cycle(state, &activity, scope) {
        refused(state, acting, activity, RunFault::ScopedCycle, reported)?;
        return Ok(());
    }
    if was_full(&activity) {
        refused(state, acting, activity, RunFault::DepthFull, reported)?;
        return Ok(());
    }
    let parent = area_on_top(&activity);
    let area = NewArea {
        scope,
        parent,
        bytes,
    };
    opened_on_top(state, acting, activity, area, reported)?;
    Ok(())
}
