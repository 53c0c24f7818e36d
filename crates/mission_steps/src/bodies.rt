//! Bodies that the framework calls: their frames, and the slots of the safelet, which the framework makes.

ghost use Rattle.std.specs.Prelude.{◌≡◌, [], ◌∷◌, IfOk, Some, None};
ghost use Rattle.scj_model.specs.Code.{code_of};
ghost use Rattle.scj_model.specs.Effects.{new_frame};
ghost use Rattle.scj_model.specs.Memory.{new_slots};
ghost use Rattle.job_frames.specs.Frames.{frames_of};

use job_frames::{Frame, FrameStack, NewFrame};
use object_slots::new_slots;
use op_list::OpList;
use run_state::NewObject;
use scj_base::{AreaId, ClassId, Memory, Ref};
use scj_rules::Body;
use std::alloc::Global;

/// A body that the framework calls on an object, in an area that the call opened or not.
#[derive(Clone, Copy, Debug)]
pub struct OwnCall {
    /// What is called.
    pub body: Body,
    /// The object on which it is called.
    pub this: Ref,
    /// The area in which it makes objects.
    pub area: AreaId,
    /// That area, if the call opened it.
    pub opened: Option<AreaId>,
}

/// The frames of a job that begins with a call of the framework's.
pub(crate) fn first_frames(
    alloc: Global,
    code: &OpList<'_>,
    call: OwnCall,
) -> Result<FrameStack, Memory>
    ensures seen { IfOk result
        (λ frames. frames_of code.now frames ≡ record
        (new_frame (code_of code.now.program) call.body None (Some call.this) call.area []) { opened = call.opened } ∷ []) }
{
    let new = NewFrame {
        body: call.body,
        called_at: None,
        this: Some(call.this),
        area: call.area,
    };
    let mut frame = Frame::new(alloc, code, new, Vec::new(alloc))?;
    frame.opened = call.opened;
    let mut frames = FrameStack::new(alloc);
    frames.push(frame)?;
    Ok(frames)
}

/// A new object of a class.
pub(crate) fn new_object(
    alloc: Global,
    code: &OpList<'_>,
    class: ClassId,
) -> Result<NewObject, Memory>
    ensures class { IfOk result (λ object. object.class ≡ class) }
    ensures slots { IfOk result (λ object. object.slots.items ≡ new_slots (code_of code.now.program).program class) }
{
    let slots = new_slots(alloc, code.code().layout(), class)?;
    Ok(NewObject { class, slots })
}
