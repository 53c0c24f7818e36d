//! The calls in other memory areas (JSR 302: ManagedMemory).

ghost use Rattle.std.specs.Prelude.{◌≡◌, ℕ, Bool, List, IfOk, Option, None, Some};
ghost use Rattle.scj_model.specs.declared.plans.ReadingRow.{ReadingRow as Reading};
ghost use Rattle.scj_model.specs.Code.{code_of};
ghost use Rattle.scj_model.specs.Effects.{Effect as Seen, Stuck};
ghost use Rattle.scj_model.specs.Operations.{enter_op, execute_in_op, are_one_area, same_op, with_area};
ghost use Rattle.op_list.specs.Listed.{Listing};
ghost use Rattle.job_frames.specs.EffectsSeen.{Does, world};
ghost use Rattle.job_frames.specs.declared.frames.Frame.{Frame as StoredFrame};
ghost use Rattle.job_frames.specs.Frames.{frame_of};
ghost use Rattle.call_operations.specs.Continued.{entering, objects_of, running};

use crate::asked::{private_scope, run_of};
use job_frames::{Effect, Frame, NewFrame};
use op_list::OpList;
use region_heap::RegionHeap;
use scj_base::{AreaId, Memory, NodeId, Ref, RunFault, Value};
use std::alloc::Global;

/// The call of `run` on an object in a new area of so many bytes, inside the caller's.
fn opens(
    code: &OpList<'_>,
    memory: &RegionHeap,
    frame: &Frame,
    id: NodeId,
    r: Ref,
    bytes: u32,
) -> Effect
    ensures { Does code.now
        (entering (code_of code.now.program) (objects_of memory.now) id r bytes (frame_of code.now frame.now))
        result frame.now }
{
    let Some(object) = memory.object(r) else {
        return Effect::Stuck;
    };
    let Some(body) = run_of(code, object.class()) else {
        return Effect::Stuck;
    };
    match private_scope(code, object.class()) {
        Some(scope) => Effect::Opens {
            call: NewFrame {
                body,
                called_at: Some(id),
                this: Some(r),
                area: frame.area,
            },
            scope,
            bytes: u64::from(bytes),
        },
        None => Effect::Stuck,
    }
}

/// `enterPrivateMemory`.
pub fn enter(code: &OpList<'_>, memory: &RegionHeap, frame: &mut Frame, id: NodeId) -> Effect
    ensures does { (rows : List Reading) (unit : ℕ) →
        Does code.now
        (enter_op (code_of code.now.program) (world memory.now rows unit) (frame_of code.now frame.old) id)
        result frame.new }
    ensures opened { frame.new.opened ≡ frame.old.opened }
{
    let Some(runnable) = frame.pop() else {
        return Effect::Stuck;
    };
    let Some(size) = frame.pop() else {
        return Effect::Stuck;
    };
    match runnable {
        Value::At(r) => match size {
            Value::Int(bytes) => {
                if bytes < 0 {
                    return Effect::Faults {
                        fault: RunFault::NegativeSize,
                    };
                }
                opens(code, memory, frame, id, r, bytes.unsigned_abs())
            }
            _ => Effect::Stuck,
        },
        Value::Null => Effect::Faults {
            fault: RunFault::NullPointer,
        },
        _ => Effect::Stuck,
    }
}

/// The call of `run` on an object in the area of another one.
fn runs_in(
    alloc: Global,
    code: &OpList<'_>,
    memory: &RegionHeap,
    id: NodeId,
    target: Ref,
    r: Ref,
) -> Effect
    ensures { (frame : StoredFrame) → Does code.now
        (running (code_of code.now.program) (objects_of memory.now) id target r (frame_of code.now frame))
        result frame }
{
    let Some(there) = memory.object(target) else {
        return Effect::Stuck;
    };
    let Some(object) = memory.object(r) else {
        return Effect::Stuck;
    };
    match run_of(code, object.class()) {
        Some(body) => Effect::Calls {
            call: NewFrame {
                body,
                called_at: Some(id),
                this: Some(r),
                area: there.area(),
            },
            arguments: Vec::new(alloc),
        },
        None => Effect::Stuck,
    }
}

/// `executeInAreaOf`.
pub fn execute_in(
    alloc: Global,
    code: &OpList<'_>,
    memory: &RegionHeap,
    frame: &mut Frame,
    id: NodeId,
) -> Effect
    ensures does { (rows : List Reading) (unit : ℕ) →
        Does code.now
        (execute_in_op (code_of code.now.program) (world memory.now rows unit) (frame_of code.now frame.old) id)
        result frame.new }
    ensures opened { frame.new.opened ≡ frame.old.opened }
{
    let Some(runnable) = frame.pop() else {
        return Effect::Stuck;
    };
    let Some(object) = frame.pop() else {
        return Effect::Stuck;
    };
    match object {
        Value::At(target) => match runnable {
            Value::At(r) => runs_in(alloc, code, memory, id, target, r),
            Value::Null => Effect::Faults {
                fault: RunFault::NullPointer,
            },
            _ => Effect::Stuck,
        },
        Value::Null => Effect::Faults {
            fault: RunFault::NullPointer,
        },
        _ => Effect::Stuck,
    }
}

/// The area of the object that a value names, and none where it is null; nothing where it is no reference.
fn area_of(memory: &RegionHeap, value: Value) -> Option<Option<AreaId>>
    ensures { (rows : List Reading) (unit : ℕ) (next : Option ℕ → Seen) → with_area (world memory.now rows unit) value next
        ≡ (elim result [ None ↦ Stuck | Some area ↦ next area ]) }
{
    match value {
        Value::Null => Some(None),
        Value::At(r) => Some(Some(memory.object(r)?.area())),
        _ => None,
    }
}

/// Whether the objects that two values name lie in one area, and neither is null; nothing where one is no reference.
fn lie_in_one_area(memory: &RegionHeap, first: Value, second: Value) -> Option<bool>
    ensures { (rows : List Reading) (unit : ℕ) (next : Bool → Seen) → with_area (world memory.now rows unit) first (λ a.
        with_area (world memory.now rows unit) second (λ b. next (are_one_area a b)))
        ≡ (elim result [ None ↦ Stuck | Some is_one ↦ next is_one ]) }
{
    let first = area_of(memory, first)?;
    let second = area_of(memory, second)?;
    Some(match (first, second) {
        (Some(a), Some(b)) => a == b,
        _ => false,
    })
}

/// `allocInSame`.
pub fn same(memory: &RegionHeap, frame: &mut Frame) -> Result<Effect, Memory>
    ensures does { (code : Listing) (rows : List Reading) (unit : ℕ) → IfOk result (λ effect.
        Does code (same_op (world memory.now rows unit) (frame_of code frame.old)) effect frame.new) }
    ensures opened { frame.new.opened ≡ frame.old.opened }
{
    let Some(second) = frame.pop() else {
        return Ok(Effect::Stuck);
    };
    let Some(first) = frame.pop() else {
        return Ok(Effect::Stuck);
    };
    let Some(is_one) = lie_in_one_area(memory, first, second) else {
        return Ok(Effect::Stuck);
    };
    frame.push(Value::Bool(is_one))?;
    Ok(Effect::Goes)
}
