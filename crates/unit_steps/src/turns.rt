//! Who acts in a unit.

ghost use Rattle.std.specs.Prelude.{◌≡◌, ◌∷◌, ◌++◌, ◌<◌, ℕ, true, [], IfOk, OnOk, Some, option_map};
ghost use Rattle.scj_rules.specs.Words.{holds, is_among};
ghost use Rattle.scj_model.specs.declared.events.Event.TheVariants.{Run as RunEvent};
ghost use Rattle.scj_model.specs.Code.{code_of};
ghost use Rattle.op_list.specs.Listed.{Listing};
ghost use Rattle.scj_model.specs.Choice.{by_priority};
ghost use Rattle.scj_model.specs.Run.{acts, is_same_turn, ref_op, sequencer_turn, report_turn, turn_acts, turn_taken};
ghost use Rattle.scj_model.specs.State.{ReleaseAt, TheSequencer, TurnOf};
ghost use Rattle.scj_model.specs.Steps.{of_release};
ghost use Rattle.run_state.specs.Seen.{state_of, turn_seen};
ghost use Rattle.run_state.specs.Standing.{HasNumbers};
ghost use Rattle.run_state.specs.Steps.{IsStep};
ghost use Rattle.unit_steps.specs.Led.{IsLedTry};
ghost use Rattle.unit_steps.specs.Moves.{move_at, move_by};
ghost use Rattle.area_needs.specs.Refusals.{refused_at, refused_to_sequencer, refused_to_turn};
ghost use Rattle.unit_steps.specs.Refused.{Refuses, went};
ghost use Rattle.unit_steps.specs.Standing.{ActsStand, JobStands, StartStands};
ghost use Rattle.mission_steps.specs.Standing.{IsOnLive};
ghost use Rattle.region_heap.specs.Contents.{is_open_area, open_count};

use crate::frame_ops::frame_op;
use crate::refusals::{Acted, came_to, refused_own};
use mission_steps::{is_exec, sequencer_op, start_op};
use op_list::OpList;
use run_plan::Plan;
use run_releases::{Release, ReleaseStatus};
use run_state::reported::report;
use run_state::{Job, RunState, Turn};
use scj_base::Memory;
use scj_model::Event;
use std::alloc::Global;

/// The sequencer's own operation, or the next one of the body that it called.
fn sequencer_turn(
    alloc: Global,
    code: &OpList<'_>,
    plan: &Plan,
    state: &mut RunState,
    reported: &mut Vec<Event>,
) -> Result<Acted, Memory>
    requires numbers { HasNumbers state.old.memory }
    requires few { open_count state.old.memory < 1794 }
    requires live { IsOnLive state.old.memory state.old.operation }
    requires areas { (a : ℕ) → is_among a state.old.activity.areas ≡ true → is_open_area state.old.memory a ≡ true }
    requires job { JobStands code.now plan.now.readings state.old TheSequencer }
    ensures led { IfOk result
        (λ acted. IsLedTry code.now
        (sequencer_turn (code_of code.now.program) plan.now.readings (state_of code.now state.old)) (went acted)
        state.new reported.old.items reported.new.items) }
    ensures refused { IfOk result
        (λ acted. Refuses acted
        (refused_to_sequencer (code_of code.now.program) plan.now.readings (state_of code.now state.old))) }
{
    if state.activity.frames.depth() == 0 {
        let refusal = refused_own(alloc, code, state)?;
        let went = sequencer_op(alloc, code, state, reported)?;
        return Ok(came_to(went, refusal));
    }
    let acted = frame_op(alloc, code, plan, state, Job::Sequencer, reported)?;
    Ok(acted)
}

/// How a release goes on.
#[derive(Clone, Copy, Debug)]
enum Move {
    /// It starts.
    Starts { handler: u8 },
    /// It goes on.
    GoesOn,
    /// It is over, or there is none.
    Nothing,
}

/// How a release goes on.
fn move_by(release: &Release) -> Move
    ensures { result ≡ move_by release.now.handler release.now.status }
{
    match &release.status {
        ReleaseStatus::Waits => Move::Starts {
            handler: release.handler,
        },
        ReleaseStatus::Started(_) => Move::GoesOn,
        ReleaseStatus::Ended | ReleaseStatus::Dropped => Move::Nothing,
    }
}

/// How the release at a place goes on.
fn move_at(state: &RunState, index: usize) -> Move
    ensures { result ≡ move_at state.now.releases.rows index }
{
    match state.releases.release(index) {
        Some(release) => move_by(release),
        None => Move::Nothing,
    }
}

/// One operation of the release at a place.
fn release_turn(
    alloc: Global,
    code: &OpList<'_>,
    plan: &Plan,
    state: &mut RunState,
    index: usize,
    reported: &mut Vec<Event>,
) -> Result<Acted, Memory>
    requires numbers { HasNumbers state.old.memory }
    requires start { StartStands state.old index }
    requires job { JobStands code.now plan.now.readings state.old (ReleaseAt index) }
    ensures led { IfOk result
        (λ acted. IsLedTry code.now
        (ref_op (code_of code.now.program) plan.now.readings (state_of code.now state.old) (ReleaseAt index))
        (went acted) state.new reported.old.items reported.new.items) }
    ensures refused { IfOk result
        (λ acted. Refuses acted
        (refused_to_turn (code_of code.now.program) plan.now.readings (state_of code.now state.old)
        (TurnOf index))) }
{
    match move_at(state, index) {
        Move::Starts { handler } => {
            let went = start_op(alloc, code, state, index, handler, reported)?;
            Ok(came_to(went, None))
        }
        Move::GoesOn => {
            let acted = frame_op(alloc, code, plan, state, Job::Release(index), reported)?;
            Ok(acted)
        }
        Move::Nothing => Ok(Acted::Stuck),
    }
}

/// Whether it was this turn last.
#[tactic(auto, unfolding(scj_model::specs::Run::is_same_turn))]
fn is_same_turn(turn: Turn, last: Turn) -> bool
    ensures { result ≡ is_same_turn (turn_seen turn) (turn_seen last) }
{
    match turn {
        Turn::Idle => match last {
            Turn::Idle => true,
            Turn::Of(_) => false,
        },
        Turn::Of(index) => match last {
            Turn::Idle => false,
            Turn::Of(other) => index == other,
        },
    }
}

/// Whether it was this turn last in this execution.
fn is_last(state: &RunState, turn: Turn) -> bool
    ensures { result ≡ holds (option_map turn_seen state.now.last_choice) (is_same_turn (turn_seen turn)) }
{
    match state.last_choice {
        Some(last) => is_same_turn(turn, last),
        None => false,
    }
}

/// Tells that the release at a place acts.
fn report_run(state: &RunState, index: usize, reported: &mut Vec<Event>) -> Result<(), Memory>
    ensures { (code : Listing) →
        OnOk result
        (reported.new.items ≡ reported.old.items ++ of_release (state_of code state.now) (ReleaseAt index)
        (λ r. RunEvent state.now.unit r.handler r.number ∷ [])) }
{
    match state.releases.release(index) {
        Some(release) => {
            let unit = state.unit;
            report(
                reported,
                Event::Run {
                    unit,
                    handler: release.handler,
                    number: release.number,
                },
            )?;
            Ok(())
        }
        None => Ok(()),
    }
}

/// Tells whose turn it is.
fn report_turn(state: &RunState, turn: Turn, reported: &mut Vec<Event>) -> Result<(), Memory>
    ensures { (code : Listing) →
        OnOk result
        (reported.new.items ≡ reported.old.items ++ report_turn (state_of code state.now) (turn_seen turn)) }
{
    match turn {
        Turn::Idle => {
            let unit = state.unit;
            report(reported, Event::Idle { unit })?;
            Ok(())
        }
        Turn::Of(index) => {
            report_run(state, index, reported)?;
            Ok(())
        }
    }
}

/// Tells whose turn it is where the last one was another.
fn report_other_turn(state: &RunState, turn: Turn, reported: &mut Vec<Event>) -> Result<(), Memory>
    ensures { (code : Listing) →
        OnOk result
        (reported.new.items ≡ reported.old.items ++ (turn_taken (state_of code state.now) (turn_seen turn)).events) }
{
    if is_last(state, turn) {
        return Ok(());
    }
    report_turn(state, turn, reported)?;
    Ok(())
}

/// A turn is told where the last one was another.
fn turn_taken(state: &mut RunState, turn: Turn, reported: &mut Vec<Event>) -> Result<(), Memory>
    ensures same { IfOk result (λ _. state.new ≡ record state.old { last_choice = Some turn }) }
    ensures step { (code : Listing) →
        IfOk result
        (λ _. IsStep code (turn_taken (state_of code state.old) (turn_seen turn)) state.new reported.old.items
        reported.new.items) }
{
    report_other_turn(state, turn, reported)?;
    state.last_choice = Some(turn);
    Ok(())
}

/// The chosen release acts, if one is chosen.
fn turn_acts(
    alloc: Global,
    code: &OpList<'_>,
    plan: &Plan,
    state: &mut RunState,
    turn: Turn,
    reported: &mut Vec<Event>,
) -> Result<Acted, Memory>
    requires numbers { HasNumbers state.old.memory }
    requires start { (index : ℕ) → turn_seen turn ≡ TurnOf index → StartStands state.old index }
    requires job { (index : ℕ) → turn_seen turn ≡ TurnOf index →
        JobStands code.now plan.now.readings state.old (ReleaseAt index) }
    ensures led { IfOk result
        (λ acted. IsLedTry code.now
        (turn_acts (code_of code.now.program) plan.now.readings (turn_seen turn) (state_of code.now state.old))
        (went acted) state.new reported.old.items reported.new.items) }
    ensures refused { IfOk result
        (λ acted. Refuses acted
        (refused_to_turn (code_of code.now.program) plan.now.readings (state_of code.now state.old)
        (turn_seen turn))) }
{
    match turn {
        Turn::Idle => Ok(Acted::Done(None)),
        Turn::Of(index) => {
            let acted = release_turn(alloc, code, plan, state, index, reported)?;
            Ok(acted)
        }
    }
}

/// Whose turn it is in a unit of execution.
fn turn_of(state: &RunState) -> Turn
    ensures { (code : Listing) → Some (turn_seen result) ≡ by_priority (state_of code state.now) }
{
    match state.releases.chosen(state.registry.as_slice()) {
        Some(index) => Turn::Of(index),
        None => Turn::Idle,
    }
}

/// The choice and the operation: in execution a release acts or the unit is idle, else the sequencer acts.
pub(crate) fn acts(
    alloc: Global,
    code: &OpList<'_>,
    plan: &Plan,
    state: &mut RunState,
    reported: &mut Vec<Event>,
) -> Result<Acted, Memory>
    requires stands { ActsStand code.now plan.now.readings state.old }
    ensures led { IfOk result
        (λ acted. IsLedTry code.now
        (acts (code_of code.now.program) plan.now.readings by_priority (state_of code.now state.old))
        (went acted) state.new reported.old.items reported.new.items) }
    ensures refused { IfOk result
        (λ acted. Refuses acted
        (refused_at (code_of code.now.program) plan.now.readings by_priority (state_of code.now state.old))) }
{
    if !is_exec(state.phase) {
        let acted = sequencer_turn(alloc, code, plan, state, reported)?;
        return Ok(acted);
    }
    let turn = turn_of(state);
    turn_taken(state, turn, reported)?;
    let acted = turn_acts(alloc, code, plan, state, turn, reported)?;
    Ok(acted)
}
