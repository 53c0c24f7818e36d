//! The releases that are taken in at the beginning of a unit: periodic ones in the order of the handlers' numbers, then
//! the plan's in the plan's order (JSR 302: PeriodicEventHandler, AperiodicEventHandler).

ghost use Rattle.std.specs.Prelude.{◌≡◌, ◌+◌, IfOk, slice_get};
ghost use Rattle.scj_rules.specs.Words.{holds};
ghost use Rattle.scj_model.specs.Code.{code_of};
ghost use Rattle.op_list.specs.Listed.{Listing};
ghost use Rattle.scj_model.specs.Apply.{release_taken};
ghost use Rattle.scj_model.specs.Arrivals.{arrivals, due_handlers, executes_since, fired, fired_handler, is_due};
ghost use Rattle.scj_model.specs.Steps.{for_each};
ghost use Rattle.run_plan.specs.Index.{fires_before};
ghost use Rattle.run_state.specs.Seen.{state_of};
ghost use Rattle.run_state.specs.Steps.{IsStep};
ghost use Rattle.unit_steps.specs.Arriving.{arrived_at, fired_in};

use crate::dues::{comes_in, is_due};
use class_rows::ClassTable;
use mission_steps::{aperiodic_of, is_exec, release_taken, takes_releases};
use run_plan::Plan;
use run_state::RunState;
use run_state::reported::report;
use scj_base::{Memory, Name};
use scj_model::{Event, Fire};

/// The number of the handler at a place of the registry: the numbers begin with 1.
fn number_of(index: usize) -> Result<u8, Memory>
    ensures { IfOk result (λ number. number ≡ index + 1) }
{
    if index < 255 {
        Ok(index as u8 + 1)
    } else {
        Err(Memory)
    }
}

/// Whether there is a handler at a place of the registry, and it is due in this unit.
fn is_due_at(state: &RunState, index: usize) -> bool
    ensures { result ≡ holds (slice_get state.now.registry.items index) (is_due state.now.origin state.now.unit) }
{
    match state.registry.get(index) {
        Some(row) => is_due(state.origin, state.unit, row),
        None => false,
    }
}

/// The handler at a place of the registry is released if it is due.
fn arrive_if_due(
    state: &mut RunState,
    index: usize,
    reported: &mut Vec<Event>,
) -> Result<(), Memory>
    ensures { (code : Listing) →
        IfOk result
        (λ _. IsStep code (arrived_at (state_of code state.old) index) state.new reported.old.items reported.new.items) }
{
    if !is_due_at(state, index) {
        return Ok(());
    }
    let number = number_of(index)?;
    release_taken(state, number, reported)?;
    Ok(())
}

/// The handlers that are released periodically in this unit.
fn periodic_arrivals(state: &mut RunState, reported: &mut Vec<Event>) -> Result<(), Memory>
    ensures { (code : Listing) →
        IfOk result
        (λ _. IsStep code
        (for_each release_taken (due_handlers (state_of code state.old)) (state_of code state.old)) state.new
        reported.old.items reported.new.items) }
{
    if !takes_releases(state) {
        return Ok(());
    }
    for index in 0..state.registry.len() {
        arrive_if_due(state, index, reported)?;
    }
    Ok(())
}

/// The handler that a fire releases: the first aperiodic one of exactly its class, if releases are taken in.
fn fired_handler(
    classes: &ClassTable<'_>,
    state: &RunState,
    name: &Name,
) -> Result<Option<u8>, Memory>
    ensures { (code : Listing) → code.program ≡ classes.now →
        IfOk result
        (λ handler. handler ≡ fired_handler (code_of code.program) (state_of code state.now) name.now) }
{
    if !takes_releases(state) {
        return Ok(None);
    }
    let Some(class) = classes.class_of(name) else {
        return Ok(None);
    };
    let handler = aperiodic_of(state.registry.as_slice(), class)?;
    Ok(handler)
}

/// A fire of the plan.
fn fired(
    classes: &ClassTable<'_>,
    state: &mut RunState,
    fire: &Fire,
    reported: &mut Vec<Event>,
) -> Result<(), Memory>
    ensures { (code : Listing) → code.program ≡ classes.now →
        IfOk result
        (λ _. IsStep code
        (fired (code_of code.program) (state_of code state.old) fire.now) state.new reported.old.items
        reported.new.items) }
{
    match fired_handler(classes, state, &fire.handler)? {
        Some(handler) => {
            release_taken(state, handler, reported)?;
            Ok(())
        }
        None => {
            let unit = state.unit;
            report(
                reported,
                Event::Miss {
                    unit,
                    name: fire.handler,
                },
            )?;
            Ok(())
        }
    }
}

/// A fire of the plan, if it comes in this unit; `origin` is that of the mission, while it executes.
fn fired_in(
    classes: &ClassTable<'_>,
    origin: Option<u64>,
    unit: u64,
    state: &mut RunState,
    fire: &Fire,
    reported: &mut Vec<Event>,
) -> Result<(), Memory>
    ensures { (code : Listing) → code.program ≡ classes.now →
        IfOk result
        (λ _. IsStep code
        (fired_in (code_of code.program) origin unit
        (state_of code state.old) fire.now)
        state.new reported.old.items reported.new.items) }
{
    if !comes_in(origin, unit, fire) {
        return Ok(());
    }
    fired(classes, state, fire, reported)?;
    Ok(())
}

/// Those of these fires that come in this unit, one after the other.
fn fires_in_order(
    classes: &ClassTable<'_>,
    origin: Option<u64>,
    unit: u64,
    state: &mut RunState,
    fires: &[Fire],
    reported: &mut Vec<Event>,
) -> Result<(), Memory>
    ensures { (code : Listing) → code.program ≡ classes.now →
        IfOk result
        (λ _. IsStep code
        (for_each (fired_in (code_of code.program) origin unit) fires.now
        (state_of code state.old))
        state.new reported.old.items reported.new.items) }
{
    let mut rest = fires;
    while let [fire, others @ ..] = rest {
        fired_in(classes, origin, unit, state, fire, reported)?;
        rest = others;
    }
    Ok(())
}

/// The origin of the mission, while it executes.
#[tactic(auto, unfolding(scj_model::specs::Arrivals::executes_since, run_state::specs::Seen::state_of))]
fn executes_since(state: &RunState) -> Option<u64>
    ensures { (code : Listing) → result ≡ executes_since (state_of code state.now) }
{
    if is_exec(state.phase) {
        Some(state.origin)
    } else {
        None
    }
}

/// The releases that are taken in at the beginning of a unit. `past` is how many of the plan's fires from the start are
/// past.
pub(crate) fn arrivals(
    classes: &ClassTable<'_>,
    plan: &Plan,
    past: &mut usize,
    state: &mut RunState,
    reported: &mut Vec<Event>,
) -> Result<(), Memory>
    requires past { past.old ≡ fires_before plan.now state.old.unit }
    ensures arrived { (code : Listing) → code.program ≡ classes.now →
        IfOk result
        (λ _. IsStep code
        (arrivals (code_of code.program) plan.now (state_of code state.old)) state.new reported.old.items
        reported.new.items) }
    ensures past { IfOk result (λ _. past.new ≡ fires_before plan.now (state.old.unit + 1)) }
{
    let origin = executes_since(state);
    let unit = state.unit;
    let fires = plan.fires_coming(*past, origin, unit);
    let next = plan.past_fires(*past, unit);
    periodic_arrivals(state, reported)?;
    fires_in_order(classes, origin, unit, state, fires, reported)?;
    *past = next;
    Ok(())
}
