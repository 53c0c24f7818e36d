//! The calls of constructors (JLS 8.8.7.1, 15.9.4).

ghost use Rattle.std.specs.Prelude.{◌≡◌, ◌∷◌, IfOk, OnOk, if◌then◌else◌};
ghost use Rattle.scj_model.specs.Code.{code_of};
ghost use Rattle.op_list.specs.Listed.{Listing};
ghost use Rattle.op_list.specs.Meanings.{construct};
ghost use Rattle.job_frames.specs.EffectsSeen.{Does};
ghost use Rattle.job_frames.specs.Frames.{frame_of};
ghost use Rattle.call_operations.specs.Continued.{constructing};

use job_frames::{Effect, Frame, NewFrame};
use scj_base::{Memory, NodeId, Value};
use scj_rules::Body;
use std::alloc::Global;

/// Puts an operand back, where it stays.
fn put_back(frame: &mut Frame, operand: Value, stays: bool) -> Result<(), Memory>
    ensures frame { OnOk result
        (frame.new ≡ (if stays then record frame.old { operands = operand ∷ frame.old.operands } else frame.old)) }
    ensures opened { frame.new.opened ≡ frame.old.opened }
{
    if stays {
        frame.push(operand)?;
    }
    Ok(())
}

/// The call of a constructor on the last operand, which stays or not, with these arguments.
fn construct_on(
    frame: &mut Frame,
    id: NodeId,
    body: Body,
    stays: bool,
    arguments: Vec<Value>,
) -> Result<Effect, Memory>
    ensures does { (code : Listing) → IfOk result (λ effect. Does code
        (constructing (code_of code.program) id body stays arguments.items (frame_of code frame.old))
        effect frame.new) }
    ensures opened { frame.new.opened ≡ frame.old.opened }
{
    let Some(object) = frame.pop() else {
        return Ok(Effect::Stuck);
    };
    match object {
        Value::At(r) => {
            put_back(frame, object, stays)?;
            Ok(Effect::Calls {
                call: NewFrame {
                    body,
                    called_at: Some(id),
                    this: Some(r),
                    area: frame.area,
                },
                arguments,
            })
        }
        _ => Ok(Effect::Stuck),
    }
}

/// The call of a constructor on the object below its arguments: that of a `new`, whose reference stays, or that of the
/// superclass, whose doesn't.
pub fn construct(
    alloc: Global,
    frame: &mut Frame,
    id: NodeId,
    body: Body,
    count: usize,
    stays: bool,
) -> Result<Effect, Memory>
    ensures does { (code : Listing) → IfOk result (λ effect. Does code
        (construct (code_of code.program) (frame_of code frame.old) id body count stays) effect frame.new) }
    ensures opened { frame.new.opened ≡ frame.old.opened }
{
    let Some(arguments) = frame.pop_all(alloc, count)? else {
        return Ok(Effect::Stuck);
    };
    construct_on(frame, id, body, stays, arguments)
}
