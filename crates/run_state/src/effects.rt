//! Effects, each done to the state, and the activity put back. The three that ask something of the mission stand with
//! the mission's steps.

ghost use Rattle.std.specs.Prelude.{◌≡◌, ◌++◌, true, false, List, IfOk};
ghost use Rattle.scj_model.specs.declared.events.Event.{Event as EventOfRun};
ghost use Rattle.op_list.specs.Listed.{Listing};
ghost use Rattle.scj_model.specs.Effects.{Faults, Goes, Leaves, Prints, Stuck};
ghost use Rattle.job_frames.specs.declared.activities.Activity.{Activity as StoredActivity};
ghost use Rattle.run_state.specs.declared.states.Acting.{Acting as ActingOfRun};
ghost use Rattle.run_state.specs.declared.states.RunState.{RunState as StateOfRun};
ghost use Rattle.run_state.specs.Standing.{CloseInOrder};
ghost use Rattle.run_state.specs.Steps.{IsApplied};

use crate::ends::fault_in;
use crate::jobs::put_back;
use crate::leaving::frame_left;
use crate::reported::report;
use crate::states::{Acting, RunState};
use job_frames::Activity;
use scj_base::{Memory, NodeId, RunFault, Value};
use scj_model::Event;

/// The frame goes on.
pub fn goes(state: &mut RunState, acting: Acting, activity: Activity) -> Result<(), Memory>
    ensures { (code : Listing) (reported : List EventOfRun) →
        IfOk result (λ _. IsApplied code state.old acting activity Goes true state.new reported reported) }
{
    put_back(state, acting.job, activity)?;
    Ok(())
}

/// It prints.
pub fn prints(
    state: &mut RunState,
    acting: Acting,
    activity: Activity,
    label: NodeId,
    value: i32,
    reported: &mut Vec<Event>,
) -> Result<(), Memory>
    ensures { (code : Listing) →
        IfOk result
        (λ _. IsApplied code state.old acting activity (λ f. Prints f label value) true state.new reported.old.items
        reported.new.items) }
{
    report(
        reported,
        Event::Print {
            unit: state.unit,
            label,
            value,
        },
    )?;
    put_back(state, acting.job, activity)?;
    Ok(())
}

/// It leaves.
pub fn leaves(
    state: &mut RunState,
    acting: Acting,
    activity: Activity,
    value: Option<Value>,
    reported: &mut Vec<Event>,
) -> Result<(), Memory>
    requires { CloseInOrder state.old.memory activity.frames }
    ensures { (code : Listing) →
        IfOk result
        (λ _. IsApplied code state.old acting activity (λ f. Leaves f value) true state.new reported.old.items
        reported.new.items) }
{
    frame_left(state, acting.job, activity, value, reported)?;
    Ok(())
}

/// A fault.
pub fn faults(
    state: &mut RunState,
    acting: Acting,
    activity: Activity,
    fault: RunFault,
    reported: &mut Vec<Event>,
) -> Result<(), Memory>
    requires { CloseInOrder state.old.memory activity.frames }
    ensures { (code : Listing) →
        IfOk result
        (λ _. IsApplied code state.old acting activity (λ f. Faults fault) true state.new reported.old.items
        reported.new.items) }
{
    fault_in(state, acting, &activity, fault, reported)?;
    Ok(())
}

/// It can't be done.
pub fn is_stuck() -> bool
    ensures went { result ≡ false }
    ensures applied { (code : Listing) (was st : StateOfRun) (acting : ActingOfRun) (activity : StoredActivity)
        (before after : List EventOfRun) → IsApplied code was acting activity (λ f. Stuck) result st before after }
{
    false
}
