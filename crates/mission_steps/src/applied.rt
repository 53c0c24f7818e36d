//! What a transition does to the state that has gone on.

ghost use Rattle.std.specs.Prelude.{◌≡◌, ◌+◌, IfOk};
ghost use Rattle.scj_model.specs.Code.{code_of};
ghost use Rattle.op_list.specs.Listed.{Listing};
ghost use Rattle.scj_model.specs.Apply.{class_name_at};
ghost use Rattle.scj_model.specs.Sequencer.{BeginsExecution, BeginsMission, ClosesMission, LacksSequencer, TakesMission, innermost, position_of_object, seq_applied, transition_done};
ghost use Rattle.run_state.specs.Seen.{state_of};
ghost use Rattle.run_state.specs.Standing.{ClosesLast, IsLive};
ghost use Rattle.run_state.specs.Steps.{IsStep};
ghost use Rattle.mission_steps.specs.Standing.{CanFollow};
ghost use Rattle.mission_steps.specs.Transitions.{effect_seen, transition_seen};

use crate::looks::{class_name, class_of, class_position};
use crate::transitions::{SeqEffect, Transition};
use op_list::OpList;
use run_state::RunState;
use run_state::ends::{close_opened, halted};
use run_state::reported::{report, report_two};
use scj_base::{Memory, Name, Position, Ref, RunFault};
use scj_model::Event;

/// Where the class of an object is named; nowhere, if there is no such object.
fn position_of_object(code: &OpList<'_>, state: &RunState, r: Ref) -> Position
    requires { IsLive state.now.memory r }
    ensures { result ≡ position_of_object (code_of code.now.program) (state_of code.now state.now) r }
{
    match class_of(&state.memory, r) {
        Some(class) => class_position(code, class),
        None => Position {
            file: 0,
            line: 0,
            col: 0,
        },
    }
}

/// The safelet has no sequencer: that is a fault where its class is named.
fn lack_sequencer(
    code: &OpList<'_>,
    state: &mut RunState,
    safelet: Ref,
    reported: &mut Vec<Event>,
) -> Result<(), Memory>
    requires { IsLive state.old.memory safelet }
    ensures { IfOk result
        (λ _. IsStep code.now
        (seq_applied (code_of code.now.program) (state_of code.now state.old) (LacksSequencer safelet)) state.new
        reported.old.items reported.new.items) }
{
    let index = position_of_object(code, state, safelet);
    halted(state, index, RunFault::NullPointer, reported)?;
    Ok(())
}

/// The name of an object's class; the empty one, if there is no such object.
fn class_name_at(code: &OpList<'_>, state: &RunState, r: Ref) -> Name
    requires { IsLive state.now.memory r }
    ensures { result ≡ class_name_at (code_of code.now.program) (state_of code.now state.now) r }
{
    match class_of(&state.memory, r) {
        Some(class) => class_name(code, class),
        None => Name::new(b""),
    }
}

/// A mission begins: its memory is open.
fn begin_mission(
    code: &OpList<'_>,
    state: &mut RunState,
    mission: Ref,
    reported: &mut Vec<Event>,
) -> Result<(), Memory>
    requires { IsLive state.old.memory mission }
    ensures { IfOk result
        (λ _. IsStep code.now
        (seq_applied (code_of code.now.program) (state_of code.now state.old) (BeginsMission mission)) state.new
        reported.old.items reported.new.items) }
{
    let class = class_name_at(code, state, mission);
    report(
        reported,
        Event::Mission {
            unit: state.unit,
            class,
        },
    )?;
    Ok(())
}

/// The mission leaves neither memory nor handlers.
fn close_mission(state: &mut RunState)
    requires { ClosesLast state.old.memory (innermost state.old.activity.areas) }
    ensures closed { (code : Listing) →
        state_of code state.new ≡ (seq_applied (code_of code.program) (state_of code state.old) ClosesMission).state }
{
    let area = state.activity.areas.innermost();
    close_opened(&mut state.memory, area);
    state.activity.areas.drop_innermost();
    state.registry.clear();
    state.mission = None;
}

/// An object is the mission from now on. It isn't asked to end, and all releases are of earlier missions.
fn take_mission(state: &mut RunState, mission: Ref)
    ensures taken { (code : Listing) →
        state_of code state.new ≡ (seq_applied (code_of code.program) (state_of code state.old) (TakesMission mission)).state }
{
    state.mission = Some(mission);
    state.is_end_asked = false;
    state.releases.begin_mission();
}

/// The unit behind another.
fn next_unit(unit: u64) -> Result<u64, Memory>
    ensures { IfOk result (λ next. next ≡ unit + 1) }
{
    match unit.checked_add(1) {
        Some(next) => Ok(next),
        None => Err(Memory),
    }
}

/// Execution begins with the next unit.
fn begin_execution(state: &mut RunState, reported: &mut Vec<Event>) -> Result<(), Memory>
    ensures { (code : Listing) →
        IfOk result
        (λ _. IsStep code (seq_applied (code_of code.program) (state_of code state.old) BeginsExecution) state.new reported.old.items
        reported.new.items) }
{
    let unit = state.unit;
    state.origin = next_unit(unit)?;
    state.last_choice = None;
    report(reported, Event::Exec { unit })?;
    Ok(())
}

/// What an effect does to the state that has gone on.
fn seq_applied(
    code: &OpList<'_>,
    state: &mut RunState,
    effect: SeqEffect,
    reported: &mut Vec<Event>,
) -> Result<(), Memory>
    requires { CanFollow state.old.memory state.old.activity.areas (effect_seen effect) }
    ensures { IfOk result
        (λ _. IsStep code.now
        (seq_applied (code_of code.now.program) (state_of code.now state.old) (effect_seen effect)) state.new
        reported.old.items reported.new.items) }
{
    let unit = state.unit;
    match effect {
        SeqEffect::Continues => Ok(()),
        SeqEffect::TakesSafelet(r) => {
            state.safelet = Some(r);
            Ok(())
        }
        SeqEffect::TakesSequencer(r) => {
            state.mission_sequencer = Some(r);
            Ok(())
        }
        SeqEffect::TakesMission(r) => {
            take_mission(state, r);
            Ok(())
        }
        SeqEffect::LacksSequencer(safelet) => lack_sequencer(code, state, safelet, reported),
        SeqEffect::LacksMission => {
            report(reported, Event::Done { unit })?;
            Ok(())
        }
        SeqEffect::BeginsMission(r) => begin_mission(code, state, r, reported),
        SeqEffect::BeginsExecution => begin_execution(state, reported),
        SeqEffect::SkipsExecution => {
            report_two(reported, Event::Exec { unit }, Event::Cleanup { unit })?;
            Ok(())
        }
        SeqEffect::EndsExecution => {
            report(reported, Event::Cleanup { unit })?;
            Ok(())
        }
        SeqEffect::ClosesMission => {
            close_mission(state);
            Ok(())
        }
    }
}

/// A transition is done: the run goes on to its phase and operation.
pub(crate) fn transition_done(
    code: &OpList<'_>,
    state: &mut RunState,
    transition: Transition,
    reported: &mut Vec<Event>,
) -> Result<(), Memory>
    requires { CanFollow state.old.memory state.old.activity.areas (effect_seen transition.effect) }
    ensures { IfOk result
        (λ _. IsStep code.now
        (transition_done (code_of code.now.program) (state_of code.now state.old) (transition_seen transition))
        state.new reported.old.items reported.new.items) }
{
    state.phase = transition.phase;
    state.operation = transition.operation;
    state.outcome = None;
    seq_applied(code, state, transition.effect, reported)?;
    Ok(())
}
