//! What an operation asks of the mission, done to the state (JSR 302: ManagedEventHandler, Mission).

ghost use Rattle.std.specs.Prelude.{◌≡◌, ℕ, ◌+◌, ◌++◌, ◌∷◌, [], IfOk, OnOk, length, option_map, slice_get};
ghost use Rattle.scj_model.specs.declared.events.Event.TheVariants.{Register as registration};
ghost use Rattle.scj_model.specs.Code.{code_of};
ghost use Rattle.scj_model.specs.State.{Object as ObjectOfRun, with_activity};
ghost use Rattle.scj_model.specs.Effects.{AsksRegistration, AsksRelease, AsksTermination};
ghost use Rattle.scj_model.specs.Apply.{class_name, registered};
ghost use Rattle.scj_model.specs.Registry.{new_row};
ghost use Rattle.job_frames.specs.Frames.{activity_seen};
ghost use Rattle.run_state.specs.Seen.{job_seen, state_of};
ghost use Rattle.run_state.specs.Standing.{CloseInOrder, IsLive};
ghost use Rattle.run_state.specs.Steps.{IsApplied, IsStep};
ghost use Rattle.mission_steps.specs.Asked.{newly_registered};

use crate::life::is_init;
use crate::looks::class_name;
use crate::registry::{handler_number, new_row};
use crate::releases::{released, termination_asked};
use job_frames::Activity;
use op_list::OpList;
use run_state::ends::fault_in;
use run_state::jobs::put_back;
use run_state::reported::report;
use run_state::{Acting, Job, RunState};
use scj_base::{Memory, Ref, RunFault};
use scj_model::{Event, HandlerRow};

/// How many handlers a mission registers at most.
const MOST_HANDLERS: usize = 64;

/// The row of a handler object, if there is such an object.
fn row_of(code: &OpList<'_>, state: &RunState, r: Ref) -> Result<Option<HandlerRow>, Memory>
    requires { IsLive state.now.memory r }
    ensures { IfOk result
        (λ row. row ≡ option_map (new_row (code_of code.now.program).program r) (slice_get state.now.memory.objects r)) }
{
    match state.memory.object(r) {
        Some(object) => {
            let row = new_row(code, r, &object)?;
            Ok(Some(row))
        }
        None => Ok(None),
    }
}

/// The number that a handler gets behind so many others.
fn next_number(count: usize) -> Result<u8, Memory>
    ensures { IfOk result (λ number. number ≡ count + 1) }
{
    if count < 255 {
        Ok(count as u8 + 1)
    } else {
        Err(Memory)
    }
}

/// Tells that a handler is registered behind the others.
fn report_registered(
    code: &OpList<'_>,
    state: &RunState,
    row: &HandlerRow,
    reported: &mut Vec<Event>,
) -> Result<(), Memory>
    ensures { OnOk result
        (reported.new.items ≡ reported.old.items ++ registration state.now.unit (length state.now.registry.items + 1)
        (class_name (code_of code.now.program) row.now.class) row.now.priority ∷ []) }
{
    let handler = next_number(state.registry.len())?;
    report(
        reported,
        Event::Register {
            unit: state.unit,
            handler,
            class: class_name(code, row.class),
            priority: row.priority,
        },
    )?;
    Ok(())
}

/// A handler is registered behind the others, and its job goes on.
fn enter(
    code: &OpList<'_>,
    state: &mut RunState,
    job: Job,
    activity: Activity,
    row: HandlerRow,
    reported: &mut Vec<Event>,
) -> Result<(), Memory>
    ensures { IfOk result
        (λ _. IsStep code.now
        (newly_registered (code_of code.now.program) (state_of code.now state.old) row
        (with_activity (state_of code.now state.old) (job_seen job)
        (activity_seen code.now activity))) state.new reported.old.items reported.new.items) }
{
    report_registered(code, state, &row, reported)?;
    put_back(state, job, activity)?;
    state.registry.push(row)?;
    Ok(())
}

/// The handler of this row is registered during the mission's initialisation, and once.
fn register(
    code: &OpList<'_>,
    state: &mut RunState,
    acting: Acting,
    activity: Activity,
    row: HandlerRow,
    reported: &mut Vec<Event>,
) -> Result<(), Memory>
    requires { CloseInOrder state.old.memory activity.frames }
    ensures { (r : ℕ) (o : ObjectOfRun) → row ≡ new_row (code_of code.now.program).program r o →
        IfOk result
        (λ _. IsStep code.now
        (registered (code_of code.now.program) (state_of code.now state.old) (job_seen acting.job)
        (activity_seen code.now activity) acting.position r o
        (with_activity (state_of code.now state.old) (job_seen acting.job)
        (activity_seen code.now activity))) state.new reported.old.items reported.new.items) }
{
    if !is_init(state.phase) {
        fault_in(
            state,
            acting,
            &activity,
            RunFault::NotInitializing,
            reported,
        )?;
        return Ok(());
    }
    if handler_number(state.registry.as_slice(), row.at)?.is_some() {
        put_back(state, acting.job, activity)?;
        return Ok(());
    }
    if state.registry.len() >= MOST_HANDLERS {
        fault_in(
            state,
            acting,
            &activity,
            RunFault::TooManyHandlers,
            reported,
        )?;
        return Ok(());
    }
    enter(code, state, acting.job, activity, row, reported)?;
    Ok(())
}

/// A handler is registered during the mission's initialisation, and once.
pub fn asks_registration(
    code: &OpList<'_>,
    state: &mut RunState,
    acting: Acting,
    activity: Activity,
    r: Ref,
    reported: &mut Vec<Event>,
) -> Result<bool, Memory>
    requires closes { CloseInOrder state.old.memory activity.frames }
    requires live { IsLive state.old.memory r }
    ensures { IfOk result
        (λ answer. IsApplied code.now state.old acting activity (λ f. AsksRegistration f r) answer state.new
        reported.old.items reported.new.items) }
{
    let Some(row) = row_of(code, state, r)? else {
        return Ok(false);
    };
    register(code, state, acting, activity, row, reported)?;
    Ok(true)
}

/// A handler is asked to be released.
pub fn asks_release(
    code: &OpList<'_>,
    state: &mut RunState,
    acting: Acting,
    activity: Activity,
    r: Ref,
    reported: &mut Vec<Event>,
) -> Result<bool, Memory>
    ensures { IfOk result
        (λ answer. IsApplied code.now state.old acting activity (λ f. AsksRelease f r) answer state.new
        reported.old.items reported.new.items) }
{
    put_back(state, acting.job, activity)?;
    released(state, r, reported)?;
    Ok(true)
}

/// The mission is asked to end.
pub fn asks_termination(
    code: &OpList<'_>,
    state: &mut RunState,
    acting: Acting,
    activity: Activity,
    r: Ref,
    reported: &mut Vec<Event>,
) -> Result<bool, Memory>
    ensures { IfOk result
        (λ answer. IsApplied code.now state.old acting activity (λ f. AsksTermination f r) answer state.new
        reported.old.items reported.new.items) }
{
    put_back(state, acting.job, activity)?;
    termination_asked(state, r, reported)?;
    Ok(true)
}
