//! Units of execution.

ghost use Rattle.std.specs.Prelude.{◌≡◌, ◌+◌, List, IfOk, OnOk, Some, true};
ghost use Rattle.scj_model.specs.declared.events.Event.{Event as EventOfRun};
ghost use Rattle.scj_model.specs.Code.{code_of};
ghost use Rattle.op_list.specs.Listed.{Listing};
ghost use Rattle.scj_model.specs.Choice.{by_priority};
ghost use Rattle.scj_model.specs.Run.{acts, next_unit, one_unit};
ghost use Rattle.scj_model.specs.Arrivals.{arrivals};
ghost use Rattle.scj_model.specs.Steps.{Step};
ghost use Rattle.run_plan.specs.Index.{fires_before};
ghost use Rattle.run_state.specs.declared.states.RunState.{RunState as StateOfRun};
ghost use Rattle.run_state.specs.Seen.{state_of};
ghost use Rattle.unit_steps.specs.Alike.{IsAlike};
ghost use Rattle.area_needs.specs.Refusals.{refused_at};
ghost use Rattle.unit_steps.specs.Led.{IsLed, IsLedTry};
ghost use Rattle.unit_steps.specs.Refused.{Refuses, followed, operated, went};
ghost use Rattle.unit_steps.specs.Standing.{ActsStand, PhaseStands};

use crate::arrivals::arrivals;
use crate::refusals::Acted;
use crate::turns::acts;
use class_rows::ClassTable;
use mission_steps::phase_after;
use op_list::OpList;
use run_plan::Plan;
use run_state::RunState;
use scj_base::Memory;
use scj_model::Event;
use std::alloc::Global;

/// What stays the same while a program runs: its code, its classes by their names, and the plan.
#[derive(Clone, Copy)]
pub struct Setting<'a> {
    pub code: &'a OpList<'a>,
    pub classes: &'a ClassTable<'a>,
    pub plan: &'a Plan,
}

/// The next unit comes next.
fn next_unit(state: &mut RunState) -> Result<(), Memory>
    ensures next { (code : Listing) →
        OnOk result (state_of code state.new ≡ next_unit (state_of code state.old)) }
{
    let Some(next) = state.unit.checked_add(1) else {
        return Err(Memory);
    };
    state.unit = next;
    Ok(())
}

/// The first part of a unit: arrivals, the choice, and one operation. `past` is how many of the plan's fires from the
/// start are past.
pub fn begin_unit(
    alloc: Global,
    setting: Setting<'_>,
    past: &mut usize,
    state: &mut RunState,
    reported: &mut Vec<Event>,
) -> Result<Acted, Memory>
    requires same { setting.classes.now ≡ setting.code.now.program }
    requires past { past.old ≡ fires_before setting.plan.now state.old.unit }
    requires arrived { (st : StateOfRun) → state_of setting.code.now st
        ≡ (arrivals (code_of setting.code.now.program) setting.plan.now (state_of setting.code.now state.old)).state →
        ActsStand setting.code.now setting.plan.now.readings st }
    ensures led { IfOk result
        (λ acted. IsLedTry setting.entry.code.now
        (operated (code_of setting.entry.code.now.program) setting.entry.plan.now by_priority
        (state_of setting.entry.code.now state.old)) (went acted) state.new reported.old.items
        reported.new.items) }
    ensures refused { IfOk result
        (λ acted. Refuses acted
        (refused_at (code_of setting.entry.code.now.program) setting.entry.plan.now.readings by_priority
        (arrivals (code_of setting.entry.code.now.program) setting.entry.plan.now
        (state_of setting.entry.code.now state.old)).state)) }
    ensures past { IfOk result (λ acted. past.new ≡ fires_before setting.entry.plan.now (state.old.unit + 1)) }
{
    arrivals(setting.classes, setting.plan, past, state, reported)?;
    let acted = acts(alloc, setting.code, setting.plan, state, reported)?;
    Ok(acted)
}

/// The other part: what follows in the sequencer. Then the next unit comes next.
pub fn end_unit(
    setting: Setting<'_>,
    state: &mut RunState,
    reported: &mut Vec<Event>,
) -> Result<bool, Memory>
    requires stands { PhaseStands state.old }
    ensures { (done : Step) (before : List EventOfRun) →
        IsLed setting.entry.code.now done state.old before reported.old.items →
        IfOk result
        (λ answer. IsLedTry setting.entry.code.now (followed (code_of setting.entry.code.now.program) done) answer
        state.new before reported.new.items) }
{
    let followed = phase_after(setting.code, state, reported)?;
    if !followed {
        return Ok(false);
    }
    next_unit(state)?;
    Ok(true)
}

/// One unit: arrivals, the choice, one operation, and what follows in the sequencer. It tells whether the unit has a
/// result, which it has in every run of an accepted program. `past` is how many of the plan's fires from the start are
/// past.
pub fn one_unit(
    alloc: Global,
    setting: Setting<'_>,
    past: &mut usize,
    state: &mut RunState,
    reported: &mut Vec<Event>,
) -> Result<bool, Memory>
    requires same { setting.classes.now ≡ setting.code.now.program }
    requires past { past.old ≡ fires_before setting.plan.now state.old.unit }
    requires arrived { (st : StateOfRun) → state_of setting.code.now st
        ≡ (arrivals (code_of setting.code.now.program) setting.plan.now (state_of setting.code.now state.old)).state →
        ActsStand setting.code.now setting.plan.now.readings st }
    requires operated { (st : StateOfRun) (step : Step) → acts (code_of setting.code.now.program) setting.plan.now.readings
        by_priority
        (arrivals (code_of setting.code.now.program) setting.plan.now (state_of setting.code.now state.old)).state
        ≡ Some step → IsAlike step.state (state_of setting.code.now st) → PhaseStands st }
    ensures led { IfOk result
        (λ answer. IsLedTry setting.entry.code.now
        (one_unit (code_of setting.entry.code.now.program) setting.entry.plan.now by_priority
        (state_of setting.entry.code.now state.old)) answer state.new reported.old.items reported.new.items) }
    ensures past { IfOk result
        (λ answer. answer ≡ true → past.new ≡ fires_before setting.entry.plan.now state.new.unit) }
{
    let acted = begin_unit(alloc, setting, past, state, reported)?;
    match acted {
        Acted::Stuck => Ok(false),
        Acted::Done(_refusal) => {
            let ended = end_unit(setting, state, reported)?;
            Ok(ended)
        }
    }
}
