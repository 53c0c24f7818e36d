//! Calls: what comes of a new frame on top of the others (JSR 302: priority ceiling emulation).

ghost use Rattle.std.specs.Prelude.{◌≡◌, ◌∷◌, ◌<◌, IfOk, OnOk, length, nat_lt};
ghost use Rattle.scj_model.specs.Code.{code_of};
ghost use Rattle.op_list.specs.Listed.{Listing};
ghost use Rattle.scj_model.specs.State.{Frame as FrameOfRun};
ghost use Rattle.scj_model.specs.Steps.{fault_in};
ghost use Rattle.scj_model.specs.Apply.{called, ceiling_entered, is_full};
ghost use Rattle.job_frames.specs.declared.activities.Activity.{Activity as StoredActivity};
ghost use Rattle.job_frames.specs.Frames.{activity_seen, below, frame_called, frames_of};
ghost use Rattle.run_state.specs.Seen.{job_seen, state_of};
ghost use Rattle.run_state.specs.Calls.{call_entered};
ghost use Rattle.run_state.specs.Standing.{CloseInOrder, IsOnLiveObject};
ghost use Rattle.run_state.specs.Steps.{HasOnTop, IsStep};

use crate::ends::fault_in;
use crate::jobs::put_back;
use crate::reported::report_priority;
use crate::states::{Acting, RunState};
use crate::tops::save_priority;
use job_frames::{Activity, Frame, NewFrame};
use op_list::OpList;
use scj_base::{Memory, RunFault, Value};
use scj_model::Event;
use std::alloc::Global;

/// How many frames a job has at most.
const MOST_FRAMES: usize = 64;

/// Puts the frame of a call on top of the others.
pub fn put_on_top(
    alloc: Global,
    code: &OpList<'_>,
    activity: &mut Activity,
    call: NewFrame,
    arguments: Vec<Value>,
) -> Result<(), Memory>
    ensures put { OnOk result
        (HasOnTop code.now (frame_called code.now call arguments.items) activity.old activity.new) }
{
    let frame = Frame::new(alloc, code, call, arguments)?;
    activity.frames.push(frame)?;
    Ok(())
}

/// Whether the job had as many frames as it may have before there was the one on top.
pub(crate) fn was_full(activity: &Activity) -> bool
    ensures deep { result ≡ nat_lt 64 (length activity.now.frames) }
    ensures full { (code : Listing) (g : FrameOfRun) (before : StoredActivity) → HasOnTop code g before activity.now →
        result ≡ is_full (frames_of code before.frames) }
{
    activity.frames.depth() > MOST_FRAMES
}

/// A call is a fault: the frame on top is no call.
pub(crate) fn refused(
    state: &mut RunState,
    acting: Acting,
    mut activity: Activity,
    fault: RunFault,
    reported: &mut Vec<Event>,
) -> Result<(), Memory>
    requires { CloseInOrder state.old.memory (below activity.frames) }
    ensures { (code : Listing) (g : FrameOfRun) (before : StoredActivity) → HasOnTop code g before activity →
        IfOk result
        (λ _. IsStep code
        (fault_in (state_of code state.old) (job_seen acting.job) (activity_seen code before) acting.position fault)
        state.new reported.old.items reported.new.items) }
{
    activity.frames.drop_top();
    fault_in(state, acting, &activity, fault, reported)?;
    Ok(())
}

/// The ceiling of the monitor that the frame on top enters, if it enters one.
fn ceiling_on_top(code: &OpList<'_>, state: &RunState, activity: &Activity) -> Option<u8>
    requires { IsOnLiveObject state.now.memory activity.now }
    ensures { (g : FrameOfRun) (before : StoredActivity) → HasOnTop code.now g before activity.now →
        result ≡ ceiling_entered (code_of code.now.program) (state_of code.now state.now) g }
{
    match activity.frames.top() {
        Some(frame) => match frame.monitor(code) {
            Some(r) => match state.memory.object(r) {
                Some(object) => Some(object.ceiling()),
                None => None,
            },
            None => None,
        },
        None => None,
    }
}

/// The frame on top keeps the priority, which becomes the ceiling of the monitor that it enters.
fn enter(activity: &mut Activity, ceiling: u8)
    ensures entered { (code : Listing) (g : FrameOfRun) (before : StoredActivity) →
        HasOnTop code g before activity.old →
        activity_seen code activity.new ≡ record
        (activity_seen code before) {
          frames = record g { saved = Some before.priority }
              ∷ frames_of code before.frames;
          priority = ceiling;
        } }
{
    save_priority(&mut activity.frames, activity.priority);
    activity.priority = ceiling;
}

/// A call that enters a monitor whose ceiling isn't below the priority.
fn entered(
    state: &mut RunState,
    acting: Acting,
    mut activity: Activity,
    ceiling: u8,
    reported: &mut Vec<Event>,
) -> Result<(), Memory>
    ensures { (code : Listing) (g : FrameOfRun) (before : StoredActivity) → HasOnTop code g before activity →
        IfOk result
        (λ _. IsStep code (call_entered (state_of code state.old) (job_seen acting.job) (activity_seen code before)
        (frames_of code before.frames) g ceiling) state.new reported.old.items reported.new.items) }
{
    let before = activity.priority;
    enter(&mut activity, ceiling);
    report_priority(state, acting.job, before, ceiling, reported)?;
    put_back(state, acting.job, activity)?;
    Ok(())
}

/// A call whose frame is on top of the others: the priority becomes the ceiling of the monitor that it enters.
pub fn called(
    code: &OpList<'_>,
    state: &mut RunState,
    acting: Acting,
    activity: Activity,
    reported: &mut Vec<Event>,
) -> Result<(), Memory>
    requires closes { CloseInOrder state.old.memory (below activity.frames) }
    requires live { IsOnLiveObject state.old.memory activity }
    ensures { (g : FrameOfRun) (before : StoredActivity) → HasOnTop code.now g before activity →
        IfOk result
        (λ _. IsStep code.now
        (called (code_of code.now.program) (state_of code.now state.old) (job_seen acting.job)
        (activity_seen code.now before) (frames_of code.now before.frames) acting.position g) state.new
        reported.old.items reported.new.items) }
{
    if was_full(&activity) {
        refused(state, acting, activity, RunFault::DepthFull, reported)?;
        return Ok(());
    }
    match ceiling_on_top(code, state, &activity) {
        None => {
            put_back(state, acting.job, activity)?;
            Ok(())
        }
        Some(ceiling) => {
            if ceiling < activity.priority {
                refused(
                    state,
                    acting,
                    activity,
                    RunFault::CeilingViolation,
                    reported,
                )?;
                Ok(())
            } else {
                entered(state, acting, activity, ceiling, reported)?;
                Ok(())
            }
        }
    }
}
