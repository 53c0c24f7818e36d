//! The other calls of the framework (JSR 302: Services, the event handlers and Mission; the trace and the device are
//! this project's profile).

ghost use Rattle.std.specs.Prelude.{◌≡◌, IfOk, if◌then◌else◌, unsigned_abs};
ghost use Rattle.scj_base.specs.declared.faults.RunFault.TheVariants.{BadPriority};
ghost use Rattle.scj_model.specs.Effects.{Faults, SetsCeiling};
ghost use Rattle.scj_model.specs.Operations.{is_priority, read_op, register_op, release_op, set_ceiling_op, terminate_op};
ghost use Rattle.op_list.specs.Listed.{Listing};
ghost use Rattle.op_list.specs.Meanings.{print};
ghost use Rattle.job_frames.specs.EffectsSeen.{Does, world};
ghost use Rattle.job_frames.specs.declared.frames.Frame.{Frame as StoredFrame};
ghost use Rattle.job_frames.specs.Frames.{frame_of};
ghost use Rattle.region_heap.specs.Contents.{Contents};

use job_frames::{Effect, Frame};
use run_plan::Plan;
use scj_base::{Memory, NodeId, Ref, RunFault, Value};
use value_operators::framework_numbers::{is_port, is_priority};

/// The ceiling of an object is set.
fn sets_ceiling(r: Ref, ceiling: i32) -> Effect
    ensures { (code : Listing) (frame : StoredFrame) → Does code
        (if is_priority ceiling then SetsCeiling (frame_of code frame) r (unsigned_abs ceiling) else Faults BadPriority)
        result frame }
{
    if is_priority(ceiling) {
        Effect::SetsCeiling {
            r,
            ceiling: ceiling.unsigned_abs() as u8,
        }
    } else {
        Effect::Faults {
            fault: RunFault::BadPriority,
        }
    }
}

/// `setCeiling`.
pub fn set_ceiling(frame: &mut Frame) -> Effect
    ensures does { (code : Listing) → Does code (set_ceiling_op (frame_of code frame.old)) result frame.new }
    ensures opened { frame.new.opened ≡ frame.old.opened }
{
    let Some(ceiling) = frame.pop() else {
        return Effect::Stuck;
    };
    let Some(object) = frame.pop() else {
        return Effect::Stuck;
    };
    match object {
        Value::At(r) => match ceiling {
            Value::Int(ceiling) => sets_ceiling(r, ceiling),
            _ => Effect::Stuck,
        },
        Value::Null => Effect::Faults {
            fault: RunFault::NullPointer,
        },
        _ => Effect::Stuck,
    }
}

/// `print`.
pub fn print(frame: &mut Frame, label: NodeId) -> Effect
    ensures does { (code : Listing) → Does code (print (frame_of code frame.old) label) result frame.new }
    ensures opened { frame.new.opened ≡ frame.old.opened }
{
    let Some(value) = frame.pop() else {
        return Effect::Stuck;
    };
    match value {
        Value::Int(value) => Effect::Prints { label, value },
        _ => Effect::Stuck,
    }
}

/// `read` of the device.
pub fn read(plan: &Plan, unit: u64, frame: &mut Frame) -> Result<Effect, Memory>
    ensures does { (code : Listing) (memory : Contents) → IfOk result (λ effect.
        Does code (read_op (world memory plan.now.readings unit) (frame_of code frame.old)) effect frame.new) }
    ensures opened { frame.new.opened ≡ frame.old.opened }
{
    let Some(port) = frame.pop() else {
        return Ok(Effect::Stuck);
    };
    match port {
        Value::Int(port) => {
            if !is_port(port) {
                return Ok(Effect::Faults {
                    fault: RunFault::BadPort,
                });
            }
            let value = plan.readings().read(port.unsigned_abs() as u8, unit);
            frame.push(Value::Int(value))?;
            Ok(Effect::Goes)
        }
        _ => Ok(Effect::Stuck),
    }
}

/// `register`.
pub fn register(frame: &mut Frame) -> Effect
    ensures does { (code : Listing) → Does code (register_op (frame_of code frame.old)) result frame.new }
    ensures opened { frame.new.opened ≡ frame.old.opened }
{
    let Some(handler) = frame.pop() else {
        return Effect::Stuck;
    };
    match handler {
        Value::At(r) => Effect::AsksRegistration { r },
        Value::Null => Effect::Faults {
            fault: RunFault::NullPointer,
        },
        _ => Effect::Stuck,
    }
}

/// `release`.
pub fn release(frame: &mut Frame) -> Effect
    ensures does { (code : Listing) → Does code (release_op (frame_of code frame.old)) result frame.new }
    ensures opened { frame.new.opened ≡ frame.old.opened }
{
    let Some(handler) = frame.pop() else {
        return Effect::Stuck;
    };
    match handler {
        Value::At(r) => Effect::AsksRelease { r },
        Value::Null => Effect::Faults {
            fault: RunFault::NullPointer,
        },
        _ => Effect::Stuck,
    }
}

/// `requestTermination`.
pub fn terminate(frame: &mut Frame) -> Effect
    ensures does { (code : Listing) → Does code (terminate_op (frame_of code frame.old)) result frame.new }
    ensures opened { frame.new.opened ≡ frame.old.opened }
{
    let Some(mission) = frame.pop() else {
        return Effect::Stuck;
    };
    match mission {
        Value::At(r) => Effect::AsksTermination { r },
        Value::Null => Effect::Faults {
            fault: RunFault::NullPointer,
        },
        _ => Effect::Stuck,
    }
}
