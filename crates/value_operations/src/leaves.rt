//! Operations that leave a frame, and the one that lets a value go (JLS 14.17, 14.8).

ghost use Rattle.std.specs.Prelude.{◌≡◌};
ghost use Rattle.scj_model.specs.Operations.{drop_op, leave_op, leave_with_op};
ghost use Rattle.op_list.specs.Listed.{Listing};
ghost use Rattle.job_frames.specs.Frames.{frame_of};
ghost use Rattle.job_frames.specs.EffectsSeen.{Does};

use job_frames::{Effect, Frame};

/// LEAVEWITH: `return` with a value.
pub fn leave_with(frame: &mut Frame) -> Effect
    ensures does { (code : Listing) → Does code (leave_with_op (frame_of code frame.old)) result frame.new }
    ensures opened { frame.new.opened ≡ frame.old.opened }
{
    match frame.pop() {
        Some(value) => Effect::Leaves { value: Some(value) },
        None => Effect::Stuck,
    }
}

/// LEAVE: the end of a body, or `return` without a value.
pub fn leave(frame: &Frame) -> Effect
    ensures { (code : Listing) → Does code (leave_op (frame_of code frame.now)) result frame.now }
{
    Effect::Leaves { value: None }
}

/// DROP: the value of an expression that is a statement is let go.
pub fn drop(frame: &mut Frame) -> Effect
    ensures does { (code : Listing) → Does code (drop_op (frame_of code frame.old)) result frame.new }
    ensures opened { frame.new.opened ≡ frame.old.opened }
{
    match frame.pop() {
        Some(_) => Effect::Goes,
        None => Effect::Stuck,
    }
}
