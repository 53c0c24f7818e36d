//! Operations on operands: the operators and casts (JLS 15.15 to 15.22).

ghost use Rattle.std.specs.Prelude.{◌≡◌, ℕ, List, IfOk, if◌then◌else◌};
ghost use Rattle.scj_base.specs.declared.faults.RunFault.TheVariants.{ClassCast};
ghost use Rattle.scj_base.specs.declared.values.Value.TheVariants.{At};
ghost use Rattle.scj_rules.specs.Classes.{is_sub};
ghost use Rattle.scj_model.specs.declared.plans.ReadingRow.{ReadingRow as Reading};
ghost use Rattle.scj_model.specs.Code.{code_of};
ghost use Rattle.scj_model.specs.State.{Object as Listed};
ghost use Rattle.scj_model.specs.Effects.{Faults, given, pushes};
ghost use Rattle.op_list.specs.Listed.{Listing};
ghost use Rattle.op_list.specs.Meanings.{bin, cast, unary};
ghost use Rattle.region_heap.specs.Contents.{live_object};
ghost use Rattle.job_frames.specs.Frames.{frame_of};
ghost use Rattle.job_frames.specs.EffectsSeen.{Does, world};

use crate::node_queries::is_sub;
use job_frames::{Effect, Frame};
use op_list::OpList;
use region_heap::RegionHeap;
use scj_base::{ClassId, Memory, Ref, RunFault, Value};
use value_operators::{binary, divides_by_zero};

/// UNARY: an operator on one operand.
pub fn unary(frame: &mut Frame, operator: u8) -> Result<Effect, Memory>
    ensures does { (code : Listing) → IfOk result (λ effect.
        Does code (unary (frame_of code frame.old) operator) effect frame.new) }
    ensures opened { frame.new.opened ≡ frame.old.opened }
{
    let Some(operand) = frame.pop() else {
        return Ok(Effect::Stuck);
    };
    let Some(value) = value_operators::unary(operator, operand) else {
        return Ok(Effect::Stuck);
    };
    frame.push(value)?;
    Ok(Effect::Goes)
}

/// BIN: an operator on two operands.
pub fn bin(frame: &mut Frame, operator: u8) -> Result<Effect, Memory>
    ensures does { (code : Listing) → IfOk result (λ effect.
        Does code (bin (frame_of code frame.old) operator) effect frame.new) }
    ensures opened { frame.new.opened ≡ frame.old.opened }
{
    let Some(right) = frame.pop() else {
        return Ok(Effect::Stuck);
    };
    let Some(left) = frame.pop() else {
        return Ok(Effect::Stuck);
    };
    let divisor = right;
    if divides_by_zero(operator, divisor) {
        return Ok(Effect::Faults {
            fault: RunFault::DivideByZero,
        });
    }
    let Some(value) = binary(operator, left, right) else {
        return Ok(Effect::Stuck);
    };
    frame.push(value)?;
    Ok(Effect::Goes)
}

/// The cast of an object to a class.
fn cast_to(
    code: &OpList<'_>,
    memory: &RegionHeap,
    frame: &mut Frame,
    r: Ref,
    class: ClassId,
) -> Result<Effect, Memory>
    ensures does { IfOk result (λ effect.
        Does code.now
        (given (live_object memory.now r) (λ (o : Listed).
        if is_sub (code_of code.now.program).program.classes o.class class
        then pushes (frame_of code.now frame.old) (At r) else Faults ClassCast))
        effect frame.new) }
    ensures opened { frame.new.opened ≡ frame.old.opened }
{
    let Some(object) = memory.object(r) else {
        return Ok(Effect::Stuck);
    };
    if !is_sub(code, object.class(), class) {
        return Ok(Effect::Faults {
            fault: RunFault::ClassCast,
        });
    }
    frame.push(Value::At(r))?;
    Ok(Effect::Goes)
}

/// CAST: a reference is asked to be of a class.
pub fn cast(
    code: &OpList<'_>,
    memory: &RegionHeap,
    frame: &mut Frame,
    class: ClassId,
) -> Result<Effect, Memory>
    ensures does { (rows : List Reading) (unit : ℕ) → IfOk result (λ effect.
        Does code.now
        (cast (code_of code.now.program) (world memory.now rows unit) (frame_of code.now frame.old) class)
        effect frame.new) }
    ensures opened { frame.new.opened ≡ frame.old.opened }
{
    let Some(operand) = frame.pop() else {
        return Ok(Effect::Stuck);
    };
    match operand {
        Value::At(r) => cast_to(code, memory, frame, r, class),
        Value::Null => {
            frame.push(Value::Null)?;
            Ok(Effect::Goes)
        }
        _ => Ok(Effect::Stuck),
    }
}
