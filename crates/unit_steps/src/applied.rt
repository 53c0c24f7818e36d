//! What an effect does to the state.

ghost use Rattle.std.specs.Prelude.{◌≡◌, ◌∷◌, ℕ, IfOk, List, [], Some, true};
ghost use Rattle.area_needs.specs.Refusals.{refused_by};
ghost use Rattle.scj_model.specs.Effects.{Calls, Opens};
ghost use Rattle.scj_model.specs.State.{State as StateSeen};
ghost use Rattle.region_heap.specs.Contents.{with_memory};
ghost use Rattle.job_frames.specs.EffectsSeen.{effect_seen};
ghost use Rattle.job_frames.specs.declared.frames.Frame.{Frame as StoredFrame};
ghost use Rattle.job_frames.specs.Frames.{frame_called, frame_of};
ghost use Rattle.run_state.specs.Standing.{CloseInOrder, HasNumbers, IsLive, StandsIn};
ghost use Rattle.run_state.specs.Steps.{IsApplied};
ghost use Rattle.unit_steps.specs.Refused.{Refuses, went};
ghost use Rattle.unit_steps.specs.Standing.{EffectStands};

use crate::refusals::{Acted, came_to, refused_before};
use job_frames::{Activity, Effect, NewFrame};
use mission_steps::{asks_registration, asks_release, asks_termination};
use op_list::OpList;
use run_state::calls::{called, put_on_top};
use run_state::effects::{faults, goes, is_stuck, leaves, prints};
use run_state::openings::opened_in;
use run_state::stores::{makes, makes_array, sets_ceiling, sets_hidden, stores, stores_static};
use run_state::{Acting, NewArray, NewObject, RunState};
use scj_base::{Memory, ScopeId, Value};
use scj_model::Event;
use std::alloc::Global;

/// It calls.
fn calls(
    alloc: Global,
    code: &OpList<'_>,
    state: &mut RunState,
    acting: Acting,
    activity: Activity,
    call: NewFrame,
    arguments: Vec<Value>,
    reported: &mut Vec<Event>,
) -> Result<(), Memory>
    requires closes { CloseInOrder state.old.memory activity.frames }
    requires live { (r : ℕ) → call.this ≡ Some r → IsLive state.old.memory r }
    ensures { IfOk result
        (λ _. IsApplied code.now state.old acting activity
        (λ f. Calls f (frame_called code.now call arguments.items)) true state.new reported.old.items
        reported.new.items) }
{
    let mut activity = activity;
    put_on_top(alloc, code, &mut activity, call, arguments)?;
    called(code, state, acting, activity, reported)?;
    Ok(())
}

/// It calls in a new area inside its own.
fn opens(
    alloc: Global,
    code: &OpList<'_>,
    state: &mut RunState,
    acting: Acting,
    activity: Activity,
    call: NewFrame,
    scope: ScopeId,
    bytes: u64,
    reported: &mut Vec<Event>,
) -> Result<(), Memory>
    requires stands { StandsIn state.old.memory activity }
    requires numbers { HasNumbers state.old.memory }
    ensures { IfOk result
        (λ _. IsApplied code.now state.old acting activity
        (λ f. Opens f (frame_called code.now call []) scope bytes) true state.new reported.old.items
        reported.new.items) }
{
    let mut activity = activity;
    let none = Vec::new(alloc);
    put_on_top(alloc, code, &mut activity, call, none)?;
    opened_in(state, acting, activity, scope, bytes, reported)?;
    Ok(())
}

/// Does an effect to the state, whose job has this activity with the highest frame as the operation left it, and tells
/// whether it can be done.
fn apply(
    alloc: Global,
    code: &OpList<'_>,
    state: &mut RunState,
    acting: Acting,
    activity: Activity,
    effect: Effect,
    reported: &mut Vec<Event>,
) -> Result<bool, Memory>
    requires stands { StandsIn state.old.memory activity }
    requires numbers { HasNumbers state.old.memory }
    requires effect { EffectStands state.old.memory activity effect }
    ensures { IfOk result
        (λ answer. IsApplied code.now state.old acting activity (effect_seen code.now effect) answer
        state.new reported.old.items reported.new.items) }
{
    match effect {
        Effect::Goes => {
            goes(state, acting, activity)?;
            Ok(true)
        }
        Effect::Prints { label, value } => {
            prints(state, acting, activity, label, value, reported)?;
            Ok(true)
        }
        Effect::Makes { class, slots } => {
            let object = NewObject { class, slots };
            makes(state, acting, activity, object, reported)?;
            Ok(true)
        }
        Effect::MakesArray { class, kind, count } => {
            let array = NewArray { class, kind, count };
            makes_array(state, acting, activity, array, reported)?;
            Ok(true)
        }
        Effect::Stores { r, slot, value } => {
            stores(state, acting, activity, r, slot, value)?;
            Ok(true)
        }
        Effect::StoresStatic { index, value } => {
            stores_static(state, acting, activity, index, value)?;
            Ok(true)
        }
        Effect::SetsHidden { r, hidden } => {
            sets_hidden(state, acting, activity, r, hidden)?;
            Ok(true)
        }
        Effect::SetsCeiling { r, ceiling } => {
            sets_ceiling(state, acting, activity, r, ceiling, reported)?;
            Ok(true)
        }
        Effect::Calls { call, arguments } => {
            calls(
                alloc, code, state, acting, activity, call, arguments, reported,
            )?;
            Ok(true)
        }
        Effect::Opens { call, scope, bytes } => {
            opens(
                alloc, code, state, acting, activity, call, scope, bytes, reported,
            )?;
            Ok(true)
        }
        Effect::Leaves { value } => {
            leaves(state, acting, activity, value, reported)?;
            Ok(true)
        }
        Effect::Faults { fault } => {
            faults(state, acting, activity, fault, reported)?;
            Ok(true)
        }
        Effect::AsksRegistration { r } => asks_registration(
            code, state, acting, activity, r, reported,
        ),
        Effect::AsksRelease { r } => asks_release(code, state, acting, activity, r, reported),
        Effect::AsksTermination { r } => asks_termination(
            code, state, acting, activity, r, reported,
        ),
        Effect::Stuck => Ok(is_stuck()),
    }
}

/// Does an effect to the state in the same way, and answers what it came to, with what it was refused.
pub(crate) fn apply_effect(
    alloc: Global,
    code: &OpList<'_>,
    state: &mut RunState,
    acting: Acting,
    activity: Activity,
    effect: Effect,
    reported: &mut Vec<Event>,
) -> Result<Acted, Memory>
    requires stands { StandsIn state.old.memory activity }
    requires numbers { HasNumbers state.old.memory }
    requires effect { EffectStands state.old.memory activity effect }
    ensures applied { IfOk result
        (λ acted. IsApplied code.now state.old acting activity (effect_seen code.now effect)
        (went acted) state.new reported.old.items reported.new.items) }
    ensures refused { (s : StateSeen) (f : StoredFrame) (below : List StoredFrame) → activity.frames ≡ f ∷ below →
        IfOk result
        (λ acted. Refuses acted (refused_by (with_memory s state.old.memory)
        (effect_seen code.now effect (frame_of code.now f)))) }
{
    let refusal = refused_before(state, &activity, &effect)?;
    let went = apply(alloc, code, state, acting, activity, effect, reported)?;
    Ok(came_to(went, refusal))
}
