//! One operation of a job that is under way.

ghost use Rattle.std.specs.Prelude.{◌≡◌, [], IfOk, IfSome, IfNone, Some};
ghost use Rattle.scj_model.specs.Code.{code_of};
ghost use Rattle.scj_model.specs.Run.{frame_op};
ghost use Rattle.scj_model.specs.State.{Activity as ActivityOfRun, activity_of};
ghost use Rattle.op_list.specs.Rows.{rest_at};
ghost use Rattle.job_frames.specs.EffectsSeen.{world as environment};
ghost use Rattle.run_state.specs.Seen.{job_seen, state_of};
ghost use Rattle.run_state.specs.Standing.{HasNumbers};
ghost use Rattle.unit_steps.specs.Led.{IsLedTry};
ghost use Rattle.area_needs.specs.Refusals.{refused_on};
ghost use Rattle.unit_steps.specs.Refused.{Refuses, went};
ghost use Rattle.unit_steps.specs.Next.{IsNext, IsNextOnTop, top_rest};
ghost use Rattle.unit_steps.specs.Standing.{JobStands};

use crate::applied::apply_effect;
use crate::positions::position_of;
use crate::refusals::Acted;
use call_operations::{World, operate};
use job_frames::{Effect, Frame, FrameStack};
use op_list::OpList;
use run_plan::Plan;
use run_state::jobs::take_out;
use run_state::{Acting, Job, RunState};
use scj_base::Memory;
use scj_model::{Event, Op};
use std::alloc::Global;

/// An operation that is done to its frame, and its effect.
#[derive(Drop)]
struct Done {
    /// The operation.
    op: Op,
    /// Its effect.
    effect: Effect,
}

/// The next operation of a frame; none if no operation is left.
fn next_in(
    alloc: Global,
    code: &OpList<'_>,
    world: World<'_>,
    frame: &mut Frame,
) -> Result<Option<Done>, Memory>
    ensures some { IfOk result
        (λ next. IfSome next
        (λ done. IsNext code.now
        (environment world.entry.memory.now world.entry.plan.now.readings world.entry.unit) done.op done.effect
        frame.old frame.new)) }
    ensures none { IfOk result (λ next. IfNone next (rest_at code.now.rows frame.old.index ≡ [])) }
{
    match frame.next(code) {
        Some(row) => {
            let op = row.op;
            let effect = operate(alloc, code, world, frame, &row)?;
            Ok(Some(Done { op, effect }))
        }
        None => Ok(None),
    }
}

/// The next operation of the highest frame; none if there is no frame, or no operation is left.
fn next_on_top(
    alloc: Global,
    code: &OpList<'_>,
    world: World<'_>,
    frames: &mut FrameStack,
) -> Result<Option<Done>, Memory>
    ensures some { IfOk result
        (λ next. IfSome next
        (λ done. IsNextOnTop code.now
        (environment world.entry.memory.now world.entry.plan.now.readings world.entry.unit) done.op done.effect
        frames.old frames.new)) }
    ensures none { IfOk result (λ next. IfNone next (top_rest code.now frames.old ≡ [])) }
{
    match frames.top_mut() {
        Some(frame) => next_in(alloc, code, world, frame),
        None => Ok(None),
    }
}

/// The next operation of the highest frame of a job.
pub(crate) fn frame_op(
    alloc: Global,
    code: &OpList<'_>,
    plan: &Plan,
    state: &mut RunState,
    job: Job,
    reported: &mut Vec<Event>,
) -> Result<Acted, Memory>
    requires numbers { HasNumbers state.old.memory }
    requires stands { JobStands code.now plan.now.readings state.old (job_seen job) }
    ensures led { (activity : ActivityOfRun) → activity_of (state_of code.now state.old)
        (job_seen job) ≡ Some activity →
        IfOk result
        (λ acted. IsLedTry code.now
        (frame_op (code_of code.now.program) plan.now.readings (state_of code.now state.old) (job_seen job) activity)
        (went acted) state.new reported.old.items reported.new.items) }
    ensures refused { (activity : ActivityOfRun) → activity_of (state_of code.now state.old)
        (job_seen job) ≡ Some activity →
        IfOk result
        (λ acted. Refuses acted (refused_on (code_of code.now.program) plan.now.readings
        (state_of code.now state.old) activity.frames)) }
{
    let Some(mut activity) = take_out(alloc, state, job) else {
        return Ok(Acted::Stuck);
    };
    let world = World {
        memory: &state.memory,
        plan,
        unit: state.unit,
    };
    let Some(done) = next_on_top(alloc, code, world, &mut activity.frames)? else {
        return Ok(Acted::Stuck);
    };
    let acting = Acting {
        job,
        position: position_of(code, done.op),
    };
    let acted = apply_effect(alloc, code, state, acting, activity, done.effect, reported)?;
    Ok(acted)
}
