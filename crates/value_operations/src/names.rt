//! Operations that make a value an operand: a literal, `this`, a local, a field.

ghost use Rattle.std.specs.Prelude.{◌≡◌, ℕ, List, IfOk, slice_get};
ghost use Rattle.scj_rules.specs.Layout.{slot_of};
ghost use Rattle.scj_model.specs.declared.plans.ReadingRow.{ReadingRow as Reading};
ghost use Rattle.scj_model.specs.Code.{code_of};
ghost use Rattle.scj_model.specs.State.{Object as Listed};
ghost use Rattle.scj_model.specs.Effects.{given, pushes};
ghost use Rattle.scj_model.specs.Operations.{this_op};
ghost use Rattle.op_list.specs.Listed.{Listing};
ghost use Rattle.op_list.specs.Meanings.{get, get_static, load};
ghost use Rattle.region_heap.specs.Contents.{live_object};
ghost use Rattle.job_frames.specs.Frames.{frame_of};
ghost use Rattle.job_frames.specs.EffectsSeen.{Does, world};

use crate::node_queries::slot_of;
use job_frames::{Effect, Frame};
use op_list::OpList;
use region_heap::RegionHeap;
use scj_base::{FieldId, Memory, Ref, RunFault, Value};

/// PUSH: the value of a literal.
#[inline]
pub fn push(frame: &mut Frame, value: Value) -> Result<Effect, Memory>
    ensures does { (code : Listing) → IfOk result (λ effect.
        Does code (pushes (frame_of code frame.old) value) effect frame.new) }
    ensures opened { frame.new.opened ≡ frame.old.opened }
{
    frame.push(value)?;
    Ok(Effect::Goes)
}

/// THIS: the object whose method runs.
#[inline]
pub fn this(frame: &mut Frame) -> Result<Effect, Memory>
    ensures does { (code : Listing) → IfOk result (λ effect.
        Does code (this_op (frame_of code frame.old)) effect frame.new) }
    ensures opened { frame.new.opened ≡ frame.old.opened }
{
    let Some(r) = frame.this else {
        return Ok(Effect::Stuck);
    };
    frame.push(Value::At(r))?;
    Ok(Effect::Goes)
}

/// LOAD: the value of a local.
#[inline]
pub fn load(frame: &mut Frame, k: u8) -> Result<Effect, Memory>
    ensures does { (code : Listing) → IfOk result (λ effect.
        Does code (load (frame_of code frame.old) k) effect frame.new) }
    ensures opened { frame.new.opened ≡ frame.old.opened }
{
    let Some(value) = frame.local(usize::from(k)) else {
        return Ok(Effect::Stuck);
    };
    frame.push(value)?;
    Ok(Effect::Goes)
}

/// The value of a field of an object becomes an operand.
fn get_from(
    code: &OpList<'_>,
    memory: &RegionHeap,
    frame: &mut Frame,
    r: Ref,
    field: FieldId,
) -> Result<Effect, Memory>
    ensures does { IfOk result (λ effect.
        Does code.now
        (given (live_object memory.now r) (λ (o : Listed).
        given (slot_of (code_of code.now.program).program o.class field) (λ slot.
        given (slice_get o.slots slot) (λ value. pushes (frame_of code.now frame.old) value))))
        effect frame.new) }
    ensures opened { frame.new.opened ≡ frame.old.opened }
{
    let Some(object) = memory.object(r) else {
        return Ok(Effect::Stuck);
    };
    let Some(slot) = slot_of(code, object.class(), field) else {
        return Ok(Effect::Stuck);
    };
    let Some(value) = object.slot(slot as usize)? else {
        return Ok(Effect::Stuck);
    };
    frame.push(value)?;
    Ok(Effect::Goes)
}

/// GET: the value of an instance field.
pub fn get(
    code: &OpList<'_>,
    memory: &RegionHeap,
    frame: &mut Frame,
    field: FieldId,
) -> Result<Effect, Memory>
    ensures does { (rows : List Reading) (unit : ℕ) → IfOk result (λ effect.
        Does code.now
        (get (code_of code.now.program) (world memory.now rows unit) (frame_of code.now frame.old) field)
        effect frame.new) }
    ensures opened { frame.new.opened ≡ frame.old.opened }
{
    let Some(object) = frame.pop() else {
        return Ok(Effect::Stuck);
    };
    match object {
        Value::At(r) => get_from(code, memory, frame, r, field),
        Value::Null => Ok(Effect::Faults {
            fault: RunFault::NullPointer,
        }),
        _ => Ok(Effect::Stuck),
    }
}

/// GETSTATIC: the value of a static field.
pub fn get_static(memory: &RegionHeap, frame: &mut Frame, index: u32) -> Result<Effect, Memory>
    ensures does { (code : Listing) (rows : List Reading) (unit : ℕ) → IfOk result (λ effect.
        Does code (get_static (world memory.now rows unit) (frame_of code frame.old) index) effect frame.new) }
    ensures opened { frame.new.opened ≡ frame.old.opened }
{
    let Some(value) = memory.static_field(index as usize) else {
        return Ok(Effect::Stuck);
    };
    frame.push(value)?;
    Ok(Effect::Goes)
}
