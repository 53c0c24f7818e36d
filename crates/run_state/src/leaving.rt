//! A frame leaves (JSR 302: ManagedMemory, priority ceiling emulation).

ghost use Rattle.std.specs.Prelude.{◌≡◌, ◌∷◌, List, IfOk, OnOk, length, unwrap_or};
ghost use Rattle.op_list.specs.Listed.{Listing};
ghost use Rattle.scj_model.specs.State.{Frame as FrameOfRun};
ghost use Rattle.scj_model.specs.Apply.{frame_left, returned, without};
ghost use Rattle.job_frames.specs.declared.frames.Frame.{Frame as StoredFrame};
ghost use Rattle.job_frames.specs.Frames.{activity_seen, frame_of, frames_of};
ghost use Rattle.run_state.specs.Seen.{job_seen, state_of};
ghost use Rattle.run_state.specs.Standing.{CloseInOrder, IsOpenedByTop};
ghost use Rattle.run_state.specs.Steps.{IsStep};
ghost use Rattle.run_state.specs.Calls.{settled};

use crate::ends::{close_opened, job_ended};
use crate::jobs::put_back;
use crate::reported::report_priority;
use crate::states::{Job, RunState};
use job_frames::Activity;
use scj_base::{AreaId, Memory, Value};
use scj_model::Event;

/// What a frame gives back when it leaves.
#[derive(Clone, Copy)]
struct Left {
    /// The area that it opened.
    opened: Option<AreaId>,
    /// The priority that it saved.
    saved: Option<u8>,
}

/// What the highest frame gives back.
fn left_by(activity: &Activity) -> Result<Left, Memory>
    ensures opened { (f : StoredFrame) (below : List StoredFrame) → activity.now.frames ≡ f ∷ below →
        IfOk result (λ left. left.opened ≡ f.opened) }
    ensures saved { (f : StoredFrame) (below : List StoredFrame) → activity.now.frames ≡ f ∷ below →
        IfOk result (λ left. left.saved ≡ f.saved) }
{
    match activity.frames.top() {
        Some(frame) => Ok(Left {
            opened: frame.opened,
            saved: frame.saved,
        }),
        None => Err(Memory),
    }
}

/// The area that the highest frame opened.
fn opened_by(activity: &Activity) -> Result<Option<AreaId>, Memory>
    ensures top { IfOk result (λ opened. IsOpenedByTop activity.now.frames opened) }
    ensures opened { (f : StoredFrame) (below : List StoredFrame) → activity.now.frames ≡ f ∷ below →
        IfOk result (λ opened. opened ≡ f.opened) }
{
    match activity.frames.top() {
        Some(frame) => Ok(frame.opened),
        None => Err(Memory),
    }
}

/// Gives the frame that is the highest now the value with which the one above left.
fn give_back(activity: &mut Activity, value: Option<Value>) -> Result<(), Memory>
    ensures given { (code : Listing) →
        OnOk result
        (activity_seen code activity.new ≡ record (activity_seen code activity.old)
        { frames = returned value (frames_of code activity.old.frames) }) }
{
    match value {
        Some(value) => {
            activity.frames.push_on_top(value)?;
            Ok(())
        }
        None => Ok(()),
    }
}

/// Takes the highest frame away, with what it gives back.
fn step_down(activity: &mut Activity, left: Left, value: Option<Value>) -> Result<(), Memory>
    ensures after { (code : Listing) (f : StoredFrame) (below : List StoredFrame) → activity.old.frames ≡ f ∷ below →
        OnOk result
        (activity_seen code activity.new ≡ record (activity_seen code activity.old) {
          frames = returned value (frames_of code below);
          areas = without left.opened activity.old.areas;
          priority = unwrap_or left.saved activity.old.priority;
        }) }
{
    activity.frames.drop_top();
    activity.areas.remove(left.opened);
    activity.priority = left.saved.unwrap_or(activity.priority);
    give_back(activity, value)?;
    Ok(())
}

/// After a frame has left, the job ends where it was the last one.
fn settle(
    state: &mut RunState,
    job: Job,
    activity: Activity,
    value: Option<Value>,
    reported: &mut Vec<Event>,
) -> Result<(), Memory>
    ensures { (code : Listing) (below : List FrameOfRun) → length below ≡ length activity.frames →
        IfOk result
        (λ _. IsStep code (settled (state_of code state.old) (job_seen job) (activity_seen code activity) value below)
        state.new reported.old.items reported.new.items) }
{
    if activity.frames.depth() == 0 {
        job_ended(state, job, activity, value, reported)?;
        Ok(())
    } else {
        put_back(state, job, activity)?;
        Ok(())
    }
}

/// The highest frame leaves: its area is closed, the priority that it saved comes back, and with the last frame the job
/// ends.
pub fn frame_left(
    state: &mut RunState,
    job: Job,
    mut activity: Activity,
    value: Option<Value>,
    reported: &mut Vec<Event>,
) -> Result<(), Memory>
    requires { CloseInOrder state.old.memory activity.frames }
    ensures { (code : Listing) (f : StoredFrame) (below : List StoredFrame) → activity.frames ≡ f ∷ below →
        IfOk result
        (λ _. IsStep code
        (frame_left (state_of code state.old) (job_seen job) (activity_seen code activity) (frame_of code f)
        (frames_of code below) value) state.new reported.old.items reported.new.items) }
{
    let left = left_by(&activity)?;
    let opened = opened_by(&activity)?;
    let before = activity.priority;
    let given = value;
    step_down(&mut activity, left, given)?;
    report_priority(state, job, before, activity.priority, reported)?;
    close_opened(&mut state.memory, opened);
    settle(state, job, activity, value, reported)?;
    Ok(())
}
