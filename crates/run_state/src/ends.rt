//! A job ends: it leaves its last frame, or meets a fault.

ghost use Rattle.std.specs.Prelude.{◌≡◌, ◌∷◌, ◌++◌, [], IfOk, None, Some, option_copied, reverse, slice_get};
ghost use Rattle.op_list.specs.Listed.{Listing};
ghost use Rattle.scj_model.specs.State.{Activity as ActivityOfRun, ReleaseAt, State, TheSequencer};
ghost use Rattle.scj_model.specs.Steps.{closed_all, fault_in, job_ended};
ghost use Rattle.job_frames.specs.declared.frames.Frame.{Frame as StoredFrame};
ghost use Rattle.job_frames.specs.Frames.{activity_seen, frames_of};
ghost use Rattle.region_heap.specs.Contents.{with_memory};
ghost use Rattle.run_state.specs.Seen.{job_seen, state_of};
ghost use Rattle.run_state.specs.Standing.{CloseInOrder, ClosesLast, after_close};
ghost use Rattle.run_state.specs.Steps.{IsStep};

use crate::reported::{report, report_end, report_two};
use crate::states::{Acting, Job, RunState};
use job_frames::{Activity, Frame};
use region_heap::RegionHeap;
use scj_base::{AreaId, Memory, Position, RunFault, Value};
use scj_model::{Event, Phase, SeqOp};

/// Closes an area that was opened, if there is one.
pub fn close_opened(memory: &mut RegionHeap, opened: Option<AreaId>)
    requires { ClosesLast memory.old opened }
    ensures { memory.new ≡ after_close memory.old opened }
{
    match opened {
        Some(area) => memory.close_top(area),
        None => {}
    }
}

/// The frame at a place, if there is one.
fn frame_at(frames: &[Frame], index: usize) -> Option<&Frame>
    ensures { option_copied result ≡ slice_get frames.now index }
{
    frames.get(index)
}

/// Closes the area that the frame at a place opened.
fn close_of(memory: &mut RegionHeap, frames: &[Frame], index: usize)
    requires { (f : StoredFrame) → Some f ≡ slice_get frames.now index → ClosesLast memory.old f.opened }
    ensures { (f : StoredFrame) → Some f ≡ slice_get frames.now index →
        memory.new ≡ after_close memory.old f.opened }
{
    if let Some(frame) = frame_at(frames, index) {
        close_opened(memory, frame.opened);
    }
}

/// Closes the areas that frames opened. The highest frame is the last one.
fn close_all(memory: &mut RegionHeap, frames: &[Frame])
    requires { CloseInOrder memory.old (reverse frames.now) }
    ensures { (code : Listing) (s : State) → closed_all (with_memory s memory.old) (frames_of code (reverse frames.now))
        ≡ with_memory s memory.new }
{
    let mut left = frames.len();
    while left > 0 {
        left -= 1;
        close_of(memory, frames, left);
    }
}

/// The sequencer meets a fault, and the run is over.
pub fn halted(
    state: &mut RunState,
    position: Position,
    fault: RunFault,
    reported: &mut Vec<Event>,
) -> Result<(), Memory>
    ensures { (code : Listing) (activity : ActivityOfRun) →
        IfOk result
        (λ _. IsStep code (fault_in (state_of code state.old) TheSequencer activity position fault) state.new
        reported.old.items reported.new.items) }
{
    let unit = state.unit;
    report_two(
        reported,
        Event::Fault {
            unit,
            fault,
            position,
        },
        Event::Halted { unit },
    )?;
    state.phase = Phase::Over;
    state.operation = SeqOp::Finished;
    state.outcome = None;
    Ok(())
}

/// The release at a place has come to its end.
fn release_ended(
    state: &mut RunState,
    release: usize,
    reported: &mut Vec<Event>,
) -> Result<(), Memory>
    ensures { (code : Listing) (activity : ActivityOfRun) →
        IfOk result
        (λ _. IsStep code (job_ended (state_of code state.old) (ReleaseAt release) activity None) state.new
        reported.old.items reported.new.items) }
{
    report_end(state, release, reported)?;
    state.releases.end(release);
    Ok(())
}

/// A release meets a fault: its frames are dropped, and the areas that they opened are closed.
fn release_broken(
    state: &mut RunState,
    release: usize,
    activity: &Activity,
    position: Position,
    fault: RunFault,
    reported: &mut Vec<Event>,
) -> Result<(), Memory>
    requires { CloseInOrder state.old.memory activity.now.frames }
    ensures { (code : Listing) →
        IfOk result
        (λ _. IsStep code
        (fault_in (state_of code state.old) (ReleaseAt release) (activity_seen code activity.now) position fault) state.new
        reported.old.items reported.new.items) }
{
    let unit = state.unit;
    report(
        reported,
        Event::Fault {
            unit,
            fault,
            position,
        },
    )?;
    report_end(state, release, reported)?;
    close_all(&mut state.memory, activity.frames.in_order());
    state.releases.end(release);
    Ok(())
}

/// A fault ends a release, and halts the run of the sequencer.
pub fn fault_in(
    state: &mut RunState,
    acting: Acting,
    activity: &Activity,
    fault: RunFault,
    reported: &mut Vec<Event>,
) -> Result<(), Memory>
    requires { CloseInOrder state.old.memory activity.now.frames }
    ensures { (code : Listing) →
        IfOk result
        (λ _. IsStep code
        (fault_in (state_of code state.old) (job_seen acting.job) (activity_seen code activity.now) acting.position fault)
        state.new reported.old.items reported.new.items) }
{
    match acting.job {
        Job::Sequencer => {
            halted(state, acting.position, fault, reported)?;
            Ok(())
        }
        Job::Release(release) => {
            release_broken(state, release, activity, acting.position, fault, reported)?;
            Ok(())
        }
    }
}

/// The operation of the sequencer is done, with this value or null.
fn sequencer_ended(state: &mut RunState, activity: Activity, value: Option<Value>)
    ensures { (code : Listing) →
        IsStep code (job_ended (state_of code state.old) TheSequencer (activity_seen code activity) value) state.new []
        [] }
{
    state.activity = activity;
    state.outcome = Some(value.unwrap_or(Value::Null));
}

/// A job has left its last frame.
pub fn job_ended(
    state: &mut RunState,
    job: Job,
    activity: Activity,
    value: Option<Value>,
    reported: &mut Vec<Event>,
) -> Result<(), Memory>
    ensures { (code : Listing) →
        IfOk result
        (λ _. IsStep code (job_ended (state_of code state.old) (job_seen job) (activity_seen code activity) value)
        state.new reported.old.items reported.new.items) }
{
    match job {
        Job::Sequencer => {
            sequencer_ended(state, activity, value);
            Ok(())
        }
        Job::Release(release) => {
            release_ended(state, release, reported)?;
            Ok(())
        }
    }
}
