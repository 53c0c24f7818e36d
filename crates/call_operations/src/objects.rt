//! New objects and arrays (JLS 15.9, 15.10).

ghost use Rattle.std.specs.Prelude.{◌≡◌, IfOk, if◌then◌else◌, unsigned_abs};
ghost use Rattle.std.specs.Int.{is_negative};
ghost use Rattle.scj_base.specs.declared.faults.RunFault.TheVariants.{NegativeSize};
ghost use Rattle.scj_model.specs.Code.{code_of};
ghost use Rattle.scj_model.specs.Effects.{Faults, Makes};
ghost use Rattle.scj_model.specs.Memory.{new_elements, new_slots};
ghost use Rattle.op_list.specs.Listed.{Listing};
ghost use Rattle.op_list.specs.Meanings.{alloc_array};
ghost use Rattle.job_frames.specs.EffectsSeen.{Does};
ghost use Rattle.job_frames.specs.declared.frames.Frame.{Frame as StoredFrame};
ghost use Rattle.job_frames.specs.Frames.{frame_of};

use job_frames::{Effect, Frame};
use object_slots::new_slots;
use op_list::OpList;
use scj_base::{ClassId, Memory, RunFault, Value};
use scj_rules::SlotKind;
use std::alloc::Global;

/// A new object of the class that a `new` names.
pub fn alloc(alloc: Global, code: &OpList<'_>, class: ClassId) -> Result<Effect, Memory>
    ensures { (frame : StoredFrame) → IfOk result (λ effect. Does code.now
        (Makes (frame_of code.now frame) class (new_slots (code_of code.now.program).program class))
        effect frame) }
{
    let slots = new_slots(alloc, code.code().layout(), class)?;
    Ok(Effect::Makes { class, slots })
}

/// A new array with so many elements.
fn new_array(class: ClassId, kind: SlotKind, count: i32) -> Effect
    ensures { (code : Listing) (frame : StoredFrame) → Does code
        (if is_negative count then Faults NegativeSize
        else Makes (frame_of code frame) class (new_elements kind (unsigned_abs count))) result frame }
{
    if count < 0 {
        return Effect::Faults {
            fault: RunFault::NegativeSize,
        };
    }
    Effect::MakesArray {
        class,
        kind,
        count: count.unsigned_abs(),
    }
}

/// A new array of the class that a `new` names, with as many elements as the last operand says.
pub fn alloc_array(frame: &mut Frame, class: ClassId, kind: SlotKind) -> Effect
    ensures does { (code : Listing) →
        Does code (alloc_array (frame_of code frame.old) class kind) result frame.new }
    ensures opened { frame.new.opened ≡ frame.old.opened }
{
    let Some(count) = frame.pop() else {
        return Effect::Stuck;
    };
    match count {
        Value::Int(count) => new_array(class, kind, count),
        _ => Effect::Stuck,
    }
}
