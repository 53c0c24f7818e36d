//! Releases that are taken in, and the end of a mission that is asked for (JSR 302: AperiodicEventHandler, Mission).

ghost use Rattle.std.specs.Prelude.{◌≡◌, ◌∷◌, [], IfOk};
ghost use Rattle.op_list.specs.Listed.{Listing};
ghost use Rattle.scj_model.specs.Apply.{asks_for_end, release_taken, released, takes_releases, termination, termination_asked};
ghost use Rattle.run_releases.specs.Releases.{report_taken};
ghost use Rattle.run_state.specs.Seen.{state_of};
ghost use Rattle.run_state.specs.Steps.{IsStep};
ghost use Rattle.mission_steps.specs.Asked.{execution_ended};

use crate::life::{is_exec, is_init};
use crate::registry::handler_number;
use run_state::RunState;
use run_state::reported::report;
use scj_base::{Memory, Ref};
use scj_model::Event;

/// Whether releases are taken in: while the mission executes and no end was asked.
#[tactic(auto, unfolding(run_state::specs::Seen::state_of))]
pub fn takes_releases(state: &RunState) -> bool
    ensures { (code : Listing) → result ≡ takes_releases (state_of code state.now) }
{
    is_exec(state.phase) && !state.is_end_asked
}

/// What the trace tells of a release of a handler that has this number, or is lost.
fn event_of(unit: u64, handler: u8, number: Option<u64>) -> Event
    ensures { result ∷ [] ≡ report_taken unit handler number }
{
    match number {
        Some(number) => Event::Arrive {
            unit,
            handler,
            number,
        },
        None => Event::Lost { unit, handler },
    }
}

/// One more release of a handler waits, unless as many wait as may.
pub fn release_taken(
    state: &mut RunState,
    handler: u8,
    reported: &mut Vec<Event>,
) -> Result<(), Memory>
    ensures { (code : Listing) →
        IfOk result
        (λ _. IsStep code (release_taken (state_of code state.old) handler) state.new reported.old.items reported.new.items) }
{
    let number = state.releases.take_in(handler)?;
    report(reported, event_of(state.unit, handler, number))?;
    Ok(())
}

/// `release` has an effect on a registered handler alone.
pub(crate) fn released(
    state: &mut RunState,
    r: Ref,
    reported: &mut Vec<Event>,
) -> Result<(), Memory>
    ensures { (code : Listing) →
        IfOk result (λ _. IsStep code (released (state_of code state.old) r) state.new reported.old.items reported.new.items) }
{
    if !takes_releases(state) {
        return Ok(());
    }
    match handler_number(state.registry.as_slice(), r)? {
        Some(handler) => {
            release_taken(state, handler, reported)?;
            Ok(())
        }
        None => Ok(()),
    }
}

/// A mission that executes is asked to end, which drops the releases that wait.
fn end_execution(state: &mut RunState, reported: &mut Vec<Event>) -> Result<(), Memory>
    ensures { (code : Listing) →
        IfOk result
        (λ _. IsStep code (execution_ended (state_of code state.old)) state.new reported.old.items reported.new.items) }
{
    let unit = state.unit;
    report(reported, Event::Terminate { unit })?;
    state.releases.drop_waiting(unit, reported)?;
    state.is_end_asked = true;
    Ok(())
}

/// The mission is asked to end.
fn termination(state: &mut RunState, reported: &mut Vec<Event>) -> Result<(), Memory>
    ensures { (code : Listing) →
        IfOk result (λ _. IsStep code (termination (state_of code state.old)) state.new reported.old.items reported.new.items) }
{
    if is_exec(state.phase) {
        end_execution(state, reported)?;
        Ok(())
    } else {
        state.is_end_asked = true;
        Ok(())
    }
}

/// Whether `requestTermination` on this object has an effect: on the current mission alone, in its initialisation and
/// its execution, and once.
fn asks_for_end(state: &RunState, r: Ref) -> bool
    ensures { result ≡ asks_for_end state.now.mission state.now.phase state.now.is_end_asked r }
{
    match state.mission {
        Some(mission) => mission == r
            && (is_init(state.phase) || is_exec(state.phase))
            && !state.is_end_asked,
        None => false,
    }
}

/// `requestTermination` on an object.
pub(crate) fn termination_asked(
    state: &mut RunState,
    r: Ref,
    reported: &mut Vec<Event>,
) -> Result<(), Memory>
    ensures { (code : Listing) →
        IfOk result
        (λ _. IsStep code (termination_asked (state_of code state.old) r) state.new reported.old.items reported.new.items) }
{
    if asks_for_end(state, r) {
        termination(state, reported)?;
        Ok(())
    } else {
        Ok(())
    }
}
