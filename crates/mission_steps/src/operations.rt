//! The sequencer's own operations (JSR 302: Safelet, MissionSequencer, Mission).

ghost use Rattle.std.specs.Prelude.{◌≡◌, ◌≤◌, ◌<◌, ◌^◌, ℕ, true, List, IfOk, length};
ghost use Rattle.scj_model.specs.declared.events.Event.{Event as EventOfRun};
ghost use Rattle.scj_model.specs.declared.operations.SeqOp.TheVariants.{AllocSafelet, ConstructSafelet, OpenImmortal, OpenMission};
ghost use Rattle.scj_rules.specs.Words.{is_among};
ghost use Rattle.region_heap.specs.Contents.{is_open_area, open_count};
ghost use Rattle.scj_model.specs.Code.{code_of};
ghost use Rattle.scj_model.specs.Sequencer.{body_called, method_called, sequencer_op};
ghost use Rattle.run_state.specs.Seen.{state_of};
ghost use Rattle.run_state.specs.Standing.{HasNumbers, IsLive};
ghost use Rattle.run_state.specs.Steps.{IsTry};
ghost use Rattle.mission_steps.specs.Standing.{IsOnLive};

use crate::areas::{make_safelet, open_inside};
use crate::bodies::{OwnCall, first_frames};
use crate::looks::{
    body_named, class_of, class_position, constructor, private_scope, safelet, size_of,
};
use op_list::OpList;
use run_state::RunState;
use scj_base::{Memory, Name, Ref, ScopeId};
use scj_model::{Event, SeqOp};
use scj_rules::Body;
use std::alloc::Global;

/// Opens immortal memory.
fn open_immortal(
    code: &OpList<'_>,
    state: &mut RunState,
    reported: &mut Vec<Event>,
) -> Result<bool, Memory>
    requires numbers { HasNumbers state.old.memory }
    requires few { open_count state.old.memory < 1794 }
    ensures { IfOk result
        (λ answer. IsTry code.now
        (sequencer_op (code_of code.now.program) (state_of code.now state.old) OpenImmortal) answer state.new
        reported.old.items reported.new.items) }
{
    let Some(class) = safelet(code) else {
        return Ok(false);
    };
    let Some(bytes) = size_of(code, class) else {
        return Ok(false);
    };
    open_inside(
        state,
        class_position(code, class),
        ScopeId::IMMORTAL,
        bytes,
        reported,
    )?;
    Ok(true)
}

/// Makes the safelet in immortal memory.
fn alloc_safelet(
    alloc: Global,
    code: &OpList<'_>,
    state: &mut RunState,
    reported: &mut Vec<Event>,
) -> Result<bool, Memory>
    requires areas { (a : ℕ) → is_among a state.old.activity.areas ≡ true → is_open_area state.old.memory a ≡ true }
    requires numbers { length state.old.memory.objects < 2 ^ 31 }
    ensures { IfOk result
        (λ answer. IsTry code.now
        (sequencer_op (code_of code.now.program) (state_of code.now state.old) AllocSafelet) answer state.new
        reported.old.items reported.new.items) }
{
    let Some(class) = safelet(code) else {
        return Ok(false);
    };
    let Some(area) = state.activity.areas.innermost() else {
        return Ok(false);
    };
    make_safelet(alloc, code, state, class, area, reported)?;
    Ok(true)
}

/// Opens the memory of a mission.
fn open_mission(
    code: &OpList<'_>,
    state: &mut RunState,
    r: Ref,
    reported: &mut Vec<Event>,
) -> Result<bool, Memory>
    requires live { IsLive state.old.memory r }
    requires numbers { HasNumbers state.old.memory }
    requires few { open_count state.old.memory < 1794 }
    ensures { IfOk result
        (λ answer. IsTry code.now
        (sequencer_op (code_of code.now.program) (state_of code.now state.old) (OpenMission r)) answer state.new
        reported.old.items reported.new.items) }
{
    let Some(class) = class_of(&state.memory, r) else {
        return Ok(false);
    };
    let Some(scope) = private_scope(code, class) else {
        return Ok(false);
    };
    let Some(bytes) = size_of(code, class) else {
        return Ok(false);
    };
    open_inside(state, class_position(code, class), scope, bytes, reported)?;
    Ok(true)
}

/// Calls a body on an object, in the innermost area. Its frame is the sequencer's only one.
fn call_body(
    alloc: Global,
    code: &OpList<'_>,
    state: &mut RunState,
    r: Ref,
    body: Body,
) -> Result<bool, Memory>
    ensures { (reported : List EventOfRun) →
        IfOk result
        (λ answer. IsTry code.now
        (body_called (code_of code.now.program) (state_of code.now state.old) r body) answer state.new reported reported) }
{
    let Some(area) = state.activity.areas.innermost() else {
        return Ok(false);
    };
    state.activity.frames = first_frames(
        alloc,
        code,
        OwnCall {
            body,
            this: r,
            area,
            opened: None,
        },
    )?;
    Ok(true)
}

/// Calls an object's constructor.
fn construct(alloc: Global, code: &OpList<'_>, state: &mut RunState, r: Ref) -> Result<bool, Memory>
    requires { IsLive state.old.memory r }
    ensures { (reported : List EventOfRun) →
        IfOk result
        (λ answer. IsTry code.now
        (sequencer_op (code_of code.now.program) (state_of code.now state.old) (ConstructSafelet r)) answer state.new
        reported reported) }
{
    let Some(class) = class_of(&state.memory, r) else {
        return Ok(false);
    };
    let Some(body) = constructor(code, class) else {
        return Ok(false);
    };
    let went = call_body(alloc, code, state, r, body)?;
    Ok(went)
}

/// Calls the method of this name that an object has.
fn call_method(
    alloc: Global,
    code: &OpList<'_>,
    state: &mut RunState,
    r: Ref,
    name: &[u8],
) -> Result<bool, Memory>
    requires live { IsLive state.old.memory r }
    requires name { length name.now ≤ 64 }
    ensures { (reported : List EventOfRun) →
        IfOk result
        (λ answer. IsTry code.now
        (method_called (code_of code.now.program) (state_of code.now state.old) r name.now) answer state.new reported
        reported) }
{
    let Some(class) = class_of(&state.memory, r) else {
        return Ok(false);
    };
    let Some(body) = body_named(code, class, &Name::new(name)) else {
        return Ok(false);
    };
    let went = call_body(alloc, code, state, r, body)?;
    Ok(went)
}

/// Does an operation of the sequencer's own.
fn operate(
    alloc: Global,
    code: &OpList<'_>,
    state: &mut RunState,
    operation: SeqOp,
    reported: &mut Vec<Event>,
) -> Result<bool, Memory>
    requires live { IsOnLive state.old.memory operation }
    requires areas { (a : ℕ) → is_among a state.old.activity.areas ≡ true → is_open_area state.old.memory a ≡ true }
    requires numbers { HasNumbers state.old.memory }
    requires few { open_count state.old.memory < 1794 }
    ensures { IfOk result
        (λ answer. IsTry code.now
        (sequencer_op (code_of code.now.program) (state_of code.now state.old) operation) answer state.new
        reported.old.items reported.new.items) }
{
    match operation {
        SeqOp::OpenImmortal => open_immortal(code, state, reported),
        SeqOp::AllocSafelet => alloc_safelet(alloc, code, state, reported),
        SeqOp::ConstructSafelet(r) => construct(alloc, code, state, r),
        SeqOp::InitializeApplication(r) => call_method(
            alloc,
            code,
            state,
            r,
            b"initializeApplication",
        ),
        SeqOp::GetSequencer(r) => call_method(alloc, code, state, r, b"getSequencer"),
        SeqOp::GetNextMission(r) => call_method(alloc, code, state, r, b"getNextMission"),
        SeqOp::OpenMission(r) => open_mission(code, state, r, reported),
        SeqOp::Initialize(r) => call_method(alloc, code, state, r, b"initialize"),
        SeqOp::CleanUp(r) => call_method(alloc, code, state, r, b"cleanUp"),
        SeqOp::Execute => Ok(false),
        SeqOp::Finished => Ok(false),
    }
}

/// One operation of the sequencer's own.
pub fn sequencer_op(
    alloc: Global,
    code: &OpList<'_>,
    state: &mut RunState,
    reported: &mut Vec<Event>,
) -> Result<bool, Memory>
    requires live { IsOnLive state.old.memory state.old.operation }
    requires areas { (a : ℕ) → is_among a state.old.activity.areas ≡ true → is_open_area state.old.memory a ≡ true }
    requires numbers { HasNumbers state.old.memory }
    requires few { open_count state.old.memory < 1794 }
    ensures { IfOk result
        (λ answer. IsTry code.now
        (sequencer_op (code_of code.now.program) (state_of code.now state.old) state.old.operation) answer state.new
        reported.old.items reported.new.items) }
{
    let operation = state.operation;
    let went = operate(alloc, code, state, operation, reported)?;
    Ok(went)
}
