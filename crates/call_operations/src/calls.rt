//! The calls of methods (JLS 15.12).

ghost use Rattle.std.specs.Prelude.{◌≡◌, ℕ, List, IfOk};
ghost use Rattle.scj_model.specs.declared.plans.ReadingRow.{ReadingRow as Reading};
ghost use Rattle.scj_model.specs.Code.{code_of};
ghost use Rattle.op_list.specs.Listed.{Listing};
ghost use Rattle.op_list.specs.Meanings.{call, call_static};
ghost use Rattle.job_frames.specs.EffectsSeen.{Does, world};
ghost use Rattle.job_frames.specs.Frames.{frame_of};
ghost use Rattle.call_operations.specs.Continued.{calling, objects_of};

use crate::asked::body_of;
use job_frames::{Effect, Frame, NewFrame};
use op_list::OpList;
use op_list::instructions::{Callee, Selector};
use region_heap::RegionHeap;
use scj_base::{Memory, MethodId, NodeId, RunFault, Value};
use std::alloc::Global;

/// The call of a method on the last operand, with these arguments.
fn call_on(
    code: &OpList<'_>,
    memory: &RegionHeap,
    frame: &mut Frame,
    id: NodeId,
    method: MethodId,
    arguments: Vec<Value>,
) -> Effect
    ensures does { Does code.now
        (calling (code_of code.now.program) (objects_of memory.now) id method arguments.items
        (frame_of code.now frame.old))
        result frame.new }
    ensures opened { frame.new.opened ≡ frame.old.opened }
{
    let Some(operand) = frame.pop() else {
        return Effect::Stuck;
    };
    match operand {
        Value::At(r) => {
            let Some(object) = memory.object(r) else {
                return Effect::Stuck;
            };
            let Some(body) = body_of(code, object.class(), method) else {
                return Effect::Stuck;
            };
            Effect::Calls {
                call: NewFrame {
                    body,
                    called_at: Some(id),
                    this: Some(r),
                    area: frame.area,
                },
                arguments,
            }
        }
        Value::Null => Effect::Faults {
            fault: RunFault::NullPointer,
        },
        _ => Effect::Stuck,
    }
}

/// The call of a method on the object below its arguments.
pub fn call(
    alloc: Global,
    code: &OpList<'_>,
    memory: &RegionHeap,
    frame: &mut Frame,
    id: NodeId,
    selector: &Selector,
) -> Result<Effect, Memory>
    ensures does { (rows : List Reading) (unit : ℕ) → IfOk result (λ effect.
        Does code.now
        (call (code_of code.now.program) (world memory.now rows unit) (frame_of code.now frame.old) id
        selector.now.method selector.now.count)
        effect frame.new) }
    ensures opened { frame.new.opened ≡ frame.old.opened }
{
    let Some(arguments) = frame.pop_all(alloc, selector.count)? else {
        return Ok(Effect::Stuck);
    };
    Ok(call_on(code, memory, frame, id, selector.method, arguments))
}

/// The call of a static method.
pub fn call_static(
    alloc: Global,
    frame: &mut Frame,
    id: NodeId,
    callee: &Callee,
) -> Result<Effect, Memory>
    ensures does { (code : Listing) → IfOk result (λ effect.
        Does code
        (call_static (code_of code.program) (frame_of code frame.old) id callee.now.body callee.now.count)
        effect frame.new) }
    ensures opened { frame.new.opened ≡ frame.old.opened }
{
    let Some(arguments) = frame.pop_all(alloc, callee.count)? else {
        return Ok(Effect::Stuck);
    };
    Ok(Effect::Calls {
        call: NewFrame {
            body: callee.body,
            called_at: Some(id),
            this: None,
            area: frame.area,
        },
        arguments,
    })
}
