//! The frames of a job.

ghost use Rattle.std.specs.Prelude.{◌≡◌, [], ◌∷◌, List, length, reverse, option_copied, slice_get, IfSome, IfNone, IfOk, OnErr};
ghost use Rattle.std.specs.Borrow.{sem};

use crate::frames::Frame;
use scj_base::{Memory, Value};
use std::alloc::Global;
use std::marker::Model;

/// The frames of a job. A contract sees the highest one first.
#[derive(Drop)]
pub struct FrameStack {
    items: Vec<Frame>,
}

impl Model for FrameStack {
    ghost use Rattle.std.specs.Prelude.{List, reverse};
    ghost use Rattle.job_frames.specs.declared.frames.Frame.{Frame as Row};

    ghost Value = { List Row };

    ghost view = { λ a. reverse a.items.items };
}

impl FrameStack {
    ghost use Rattle.job_frames.specs.Frames.{below, with_operand};
    ghost use Rattle.job_frames.specs.Lending.{LendsTop};

    /// No frames.
    pub fn new(alloc: Global) -> FrameStack
        ensures { result ≡ [] }
    {
        FrameStack {
            items: Vec::new(alloc),
        }
    }

    /// How many frames there are.
    pub fn depth(&self) -> usize
        ensures { result ≡ length self.now }
    {
        self.items.len()
    }

    /// The frames, the highest one last.
    pub fn in_order(&self) -> &[Frame]
        ensures { reverse result.now ≡ self.now }
    {
        self.items.as_slice()
    }

    /// Puts a frame on top.
    pub fn push(&mut self, frame: Frame) -> Result<(), Memory>
        ensures pushed { IfOk result (λ _. self.new ≡ frame ∷ self.old) }
        ensures err { OnErr result (self.new ≡ self.old) }
    {
        self.items.push(frame)?;
        Ok(())
    }

    /// Takes the highest frame away, if there is one.
    pub fn drop_top(&mut self)
        ensures { self.new ≡ below self.old }
    {
        let count = self.items.len();
        self.items.truncate(count.saturating_sub(1));
    }

    /// The highest frame, if there is one.
    pub fn top(&self) -> Option<&Frame>
        ensures { option_copied result ≡ slice_get self.now 0 }
    {
        self.items.last()
    }

    /// The highest frame to work on, if there is one.
    pub fn top_mut(&mut self) -> Option<&mut Frame>
        ensures* ends { sem 𝓛 (LendsTop self.entry result) }
        ensures some { IfSome result (λ frame. self.old ≡ frame.now ∷ below self.old) }
        ensures none { IfNone result (self.old ≡ []) }
    {
        self.items.last_mut()
    }

    /// Gives the highest frame an operand, if there is a frame.
    pub fn push_on_top(&mut self, value: Value) -> Result<(), Memory>
        ensures pushed { IfOk result (λ _. self.new ≡ with_operand value self.old) }
        ensures err { OnErr result (self.new ≡ self.old) }
    {
        if let Some(frame) = self.top_mut() {
            frame.push(value)?;
        }
        Ok(())
    }
}
