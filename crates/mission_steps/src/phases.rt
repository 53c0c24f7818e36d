//! What follows the operation of a unit.

ghost use Rattle.std.specs.Prelude.{◌≡◌, ◌||◌, false, IfOk, Some};
ghost use Rattle.scj_base.specs.declared.values.Value.{Value as ValueOfRun};
ghost use Rattle.scj_rules.specs.Classes.{is_empty};
ghost use Rattle.scj_model.specs.Code.{code_of};
ghost use Rattle.scj_model.specs.State.{is_exec};
ghost use Rattle.scj_model.specs.Sequencer.{after_execution, after_operation, innermost, phase_after};
ghost use Rattle.run_state.specs.Seen.{state_of};
ghost use Rattle.run_state.specs.Standing.{ClosesLast};
ghost use Rattle.run_state.specs.Steps.{IsTry};
ghost use Rattle.mission_steps.specs.Standing.{IsOnLive};

use crate::applied::transition_done;
use crate::life::is_exec;
use crate::transitions::{SeqEffect, Transition, what_follows};
use op_list::OpList;
use run_state::RunState;
use scj_base::{Memory, Value};
use scj_model::{Event, HandlerRow, Phase, SeqOp};

/// Whether a mission has no handlers.
#[tactic(auto, unfolding(scj_rules::specs::Classes::is_empty))]
fn is_empty(registry: &[HandlerRow]) -> bool
    ensures { result ≡ is_empty registry.now }
{
    match registry {
        [] => true,
        [_, ..] => false,
    }
}

/// Whether there is nothing to execute, or an end was asked.
fn skips_execution(state: &RunState) -> bool
    ensures { result ≡ (is_empty state.now.registry.items || state.now.is_end_asked) }
{
    is_empty(state.registry.as_slice()) || state.is_end_asked
}

/// The operation of the sequencer is done, with this value.
fn after_operation(
    code: &OpList<'_>,
    state: &mut RunState,
    value: Value,
    reported: &mut Vec<Event>,
) -> Result<bool, Memory>
    requires live { IsOnLive state.old.memory state.old.operation }
    requires closes { ClosesLast state.old.memory (innermost state.old.activity.areas) }
    ensures { IfOk result
        (λ answer. IsTry code.now
        (after_operation (code_of code.now.program) (state_of code.now state.old) value) answer state.new
        reported.old.items reported.new.items) }
{
    let skips = skips_execution(state);
    match what_follows(state.mission_sequencer, skips, state.operation, value) {
        Some(next) => {
            transition_done(code, state, next, reported)?;
            Ok(true)
        }
        None => Ok(false),
    }
}

/// Execution is over once an end was asked and no release is started.
fn after_execution(
    code: &OpList<'_>,
    state: &mut RunState,
    reported: &mut Vec<Event>,
) -> Result<bool, Memory>
    ensures { IfOk result
        (λ answer. IsTry code.now (after_execution (code_of code.now.program) (state_of code.now state.old))
        answer state.new reported.old.items reported.new.items) }
{
    if !state.is_end_asked {
        return Ok(true);
    }
    if state.releases.has_started() {
        return Ok(true);
    }
    let Some(mission) = state.mission else {
        return Ok(false);
    };
    let over = Transition {
        phase: Phase::Cleanup,
        operation: SeqOp::CleanUp(mission),
        effect: SeqEffect::EndsExecution,
    };
    transition_done(code, state, over, reported)?;
    Ok(true)
}

/// What follows the operation of a unit. Nothing does while a body is under way, and after the end of the run.
pub fn phase_after(
    code: &OpList<'_>,
    state: &mut RunState,
    reported: &mut Vec<Event>,
) -> Result<bool, Memory>
    requires live { IsOnLive state.old.memory state.old.operation }
    requires closes { (value : ValueOfRun) → is_exec state.old.phase ≡ false → state.old.outcome ≡ Some value →
        ClosesLast state.old.memory (innermost state.old.activity.areas) }
    ensures { IfOk result
        (λ answer. IsTry code.now (phase_after (code_of code.now.program) (state_of code.now state.old))
        answer state.new reported.old.items reported.new.items) }
{
    if is_exec(state.phase) {
        let went = after_execution(code, state, reported)?;
        return Ok(went);
    }
    let Some(value) = state.outcome else {
        return Ok(true);
    };
    let went = after_operation(code, state, value, reported)?;
    Ok(went)
}
