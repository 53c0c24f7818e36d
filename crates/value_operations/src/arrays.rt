//! Operations on arrays: the length, an element, the assignment to an element (JLS 10.4, 10.7).

ghost use Rattle.std.specs.Prelude.{◌≡◌, ℕ, List, IfOk, slice_get, Some, None, pos, length};
ghost use Rattle.scj_base.specs.declared.faults.RunFault.TheVariants.{ArrayIndex};
ghost use Rattle.scj_base.specs.declared.values.Value.TheVariants.{Int};
ghost use Rattle.scj_model.specs.declared.plans.ReadingRow.{ReadingRow as Reading};
ghost use Rattle.scj_model.specs.State.{Object as Listed};
ghost use Rattle.scj_model.specs.Effects.{Faults, Stores, given, pushes};
ghost use Rattle.scj_model.specs.Operations.{elem_op, index_in, length_op, put_elem_op};
ghost use Rattle.op_list.specs.Listed.{Listing};
ghost use Rattle.region_heap.specs.Contents.{live_object};
ghost use Rattle.job_frames.specs.Frames.{frame_of};
ghost use Rattle.job_frames.specs.EffectsSeen.{Does, world};

use job_frames::{Effect, Frame};
use region_heap::{Object, RegionHeap};
use scj_base::{Memory, Ref, RunFault, Value};

/// A length as an int.
fn int_of(length: usize) -> Result<i32, Memory>
    ensures { IfOk result (λ n. n ≡ pos length) }
{
    match i32::try_from(length) {
        Ok(n) => Ok(n),
        Err(_) => Err(Memory),
    }
}

/// The length of the array of a reference.
fn length_of(memory: &RegionHeap, frame: &mut Frame, r: Ref) -> Result<Effect, Memory>
    ensures does { (code : Listing) → IfOk result (λ effect.
        Does code
        (given (live_object memory.now r) (λ (o : Listed).
        pushes (frame_of code frame.old) (Int (pos (length o.slots)))))
        effect frame.new) }
    ensures opened { frame.new.opened ≡ frame.old.opened }
{
    let Some(array) = memory.object(r) else {
        return Ok(Effect::Stuck);
    };
    frame.push(Value::Int(int_of(array.len())?))?;
    Ok(Effect::Goes)
}

/// LENGTH: the length of an array.
pub fn length(memory: &RegionHeap, frame: &mut Frame) -> Result<Effect, Memory>
    ensures does { (code : Listing) (rows : List Reading) (unit : ℕ) → IfOk result (λ effect.
        Does code (length_op (world memory.now rows unit) (frame_of code frame.old))
        effect frame.new) }
    ensures opened { frame.new.opened ≡ frame.old.opened }
{
    let Some(array) = frame.pop() else {
        return Ok(Effect::Stuck);
    };
    match array {
        Value::At(r) => length_of(memory, frame, r),
        Value::Null => Ok(Effect::Faults {
            fault: RunFault::NullPointer,
        }),
        _ => Ok(Effect::Stuck),
    }
}

/// The number of an element of an array, if there is one.
fn index_in(array: &Object<'_>, index: i32) -> Option<usize>
    ensures { result ≡ index_in array.now.slots index }
{
    if index < 0 {
        return None;
    }
    let k = index as usize;
    if k < array.len() { Some(k) } else { None }
}

/// The element of an array.
fn elem_of(memory: &RegionHeap, frame: &mut Frame, r: Ref, index: i32) -> Result<Effect, Memory>
    ensures does { (code : Listing) → IfOk result (λ effect.
        Does code
        (given (live_object memory.now r) (λ (o : Listed). elim (index_in o.slots index) [
          | None ↦ Faults ArrayIndex
          | Some k ↦ given (slice_get o.slots k) (λ value. pushes (frame_of code frame.old) value)
        ]))
        effect frame.new) }
    ensures opened { frame.new.opened ≡ frame.old.opened }
{
    let Some(array) = memory.object(r) else {
        return Ok(Effect::Stuck);
    };
    let Some(k) = index_in(&array, index) else {
        return Ok(Effect::Faults {
            fault: RunFault::ArrayIndex,
        });
    };
    let Some(value) = array.slot(k)? else {
        return Ok(Effect::Stuck);
    };
    frame.push(value)?;
    Ok(Effect::Goes)
}

/// ELEM: an element of an array.
pub fn elem(memory: &RegionHeap, frame: &mut Frame) -> Result<Effect, Memory>
    ensures does { (code : Listing) (rows : List Reading) (unit : ℕ) → IfOk result (λ effect.
        Does code (elem_op (world memory.now rows unit) (frame_of code frame.old))
        effect frame.new) }
    ensures opened { frame.new.opened ≡ frame.old.opened }
{
    let Some(index) = frame.pop() else {
        return Ok(Effect::Stuck);
    };
    let Some(array) = frame.pop() else {
        return Ok(Effect::Stuck);
    };
    match array {
        Value::At(r) => match index {
            Value::Int(i) => elem_of(memory, frame, r, i),
            _ => Ok(Effect::Stuck),
        },
        Value::Null => Ok(Effect::Faults {
            fault: RunFault::NullPointer,
        }),
        _ => Ok(Effect::Stuck),
    }
}

/// What an assignment to the element of an array stores.
fn put_elem_of(memory: &RegionHeap, frame: &Frame, r: Ref, index: i32, value: Value) -> Effect
    ensures does { (code : Listing) → Does code
        (given (live_object memory.now r) (λ (o : Listed). elim (index_in o.slots index) [
          | None ↦ Faults ArrayIndex
          | Some k ↦ Stores (frame_of code frame.now) r k value
        ]))
        result frame.now }
{
    let Some(array) = memory.object(r) else {
        return Effect::Stuck;
    };
    match index_in(&array, index) {
        None => Effect::Faults {
            fault: RunFault::ArrayIndex,
        },
        Some(slot) => Effect::Stores { r, slot, value },
    }
}

/// PUTELEM: the assignment to an element.
pub fn put_elem(memory: &RegionHeap, frame: &mut Frame) -> Effect
    ensures does { (code : Listing) (rows : List Reading) (unit : ℕ) →
        Does code (put_elem_op (world memory.now rows unit) (frame_of code frame.old))
        result frame.new }
    ensures opened { frame.new.opened ≡ frame.old.opened }
{
    let Some(value) = frame.pop() else {
        return Effect::Stuck;
    };
    let Some(index) = frame.pop() else {
        return Effect::Stuck;
    };
    let Some(array) = frame.pop() else {
        return Effect::Stuck;
    };
    match array {
        Value::At(r) => match index {
            Value::Int(i) => put_elem_of(memory, frame, r, i, value),
            _ => Effect::Stuck,
        },
        Value::Null => Effect::Faults {
            fault: RunFault::NullPointer,
        },
        _ => Effect::Stuck,
    }
}
