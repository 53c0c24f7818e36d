//! What the sequencer and each started release have.

ghost use Rattle.std.specs.Prelude.{◌≡◌};

use crate::frame_stacks::FrameStack;
use crate::open_areas::OpenAreas;
use std::alloc::Global;

/// What a job that is under way has.
#[derive(Drop)]
pub struct Activity {
    /// Its frames.
    pub frames: FrameStack,
    /// The areas that it has open.
    pub areas: OpenAreas,
    /// Its active priority.
    pub priority: u8,
}

impl Activity {
    ghost use Rattle.job_frames.specs.Frames.{empty_activity};

    /// Without frames and areas.
    pub fn empty(alloc: Global) -> Activity
        ensures { result ≡ empty_activity }
    {
        Activity {
            frames: FrameStack::new(alloc),
            areas: OpenAreas::new(alloc),
            priority: 0,
        }
    }
}
