//! The highest frame of an activity, in place.

ghost use Rattle.std.specs.Prelude.{◌≡◌};
ghost use Rattle.run_state.specs.Tops.{moved_in, with_saved};

use job_frames::FrameStack;
use scj_base::AreaId;

/// The highest frame saves a priority.
pub(crate) fn save_priority(frames: &mut FrameStack, priority: u8)
    ensures saved { frames.new ≡ with_saved priority frames.old }
{
    if let Some(frame) = frames.top_mut() {
        frame.saved = Some(priority);
    }
}

/// The highest frame has opened an area, and makes its objects there.
pub(crate) fn move_into(frames: &mut FrameStack, area: AreaId)
    ensures moved { frames.new ≡ moved_in area frames.old }
{
    if let Some(frame) = frames.top_mut() {
        frame.area = area;
        frame.opened = Some(area);
    }
}
