//! Frames: the calls that are under way.

ghost use Rattle.std.specs.Prelude.{◌≡◌, [], ◌∷◌, ◌++◌, List, slice_get, slice_set, IfSome, IfNone, IfOk, OnErr};
ghost use Rattle.scj_base.specs.declared.values.Value.{Value as ValueOfRun};
ghost use Rattle.scj_model.specs.Code.{code_of};
ghost use Rattle.scj_model.specs.Effects.{Effect as EffectOfRun, Stuck, monitor_of, pop_all};
ghost use Rattle.scj_model.specs.State.{Frame as FrameOfRun};
ghost use Rattle.op_list.specs.Instructions.{instruction_of};
ghost use Rattle.op_list.specs.Listed.{Listing};
ghost use Rattle.op_list.specs.Rows.{GoesBy, rest_at, target};
ghost use Rattle.job_frames.specs.Frames.{frame_called, frame_of};

use crate::locals::Locals;
use crate::operands::Operands;
use op_list::{OpList, Row, target};
use scj_base::{AreaId, Memory, NodeId, Ref, Value};
use scj_rules::Body;
use std::alloc::Global;

/// A call under way.
#[derive(Drop)]
pub struct Frame {
    /// What it runs.
    pub body: Body,
    /// The node of the operation that called it, unless the framework did.
    pub called_at: Option<NodeId>,
    /// Its parameters and locals.
    pub locals: Locals,
    /// Its operands.
    pub operands: Operands,
    /// The place of its next operation in the list of operations.
    pub index: u32,
    /// The object that is `this`.
    pub this: Option<Ref>,
    /// The area in which it makes objects.
    pub area: AreaId,
    /// The priority that comes back when it leaves, if it is a synchronized method's.
    pub saved: Option<u8>,
    /// The area that it opened, if any.
    pub opened: Option<AreaId>,
}

/// A call that is to be made, without its arguments.
#[derive(Clone, Copy, Debug)]
pub struct NewFrame {
    /// What it runs.
    pub body: Body,
    /// The node of the operation that calls it, unless the framework does.
    pub called_at: Option<NodeId>,
    /// The object that is `this`.
    pub this: Option<Ref>,
    /// The area in which it makes objects.
    pub area: AreaId,
}

impl Frame {
    /// The frame of a call. Of a node that names no body there is none; no accepted program calls such a one.
    #[tactic(auto, unfolding(scj_model::specs::Effects::new_frame))]
    pub fn new(
        alloc: Global,
        code: &OpList<'_>,
        call: NewFrame,
        arguments: Vec<Value>,
    ) -> Result<Frame, Memory>
        ensures { IfOk result (λ frame.
            frame_of code.now frame ≡ frame_called code.now call arguments.items) }
    {
        let Some(row) = code.body(call.body) else {
            return Err(Memory);
        };
        let locals = Locals::new(arguments, row.locals as usize)?;
        Ok(Frame {
            body: call.body,
            called_at: call.called_at,
            locals,
            operands: Operands::new(alloc),
            index: row.start,
            this: call.this,
            area: call.area,
            saved: None,
            opened: None,
        })
    }

    /// Puts an operand last.
    #[inline]
    pub fn push(&mut self, value: Value) -> Result<(), Memory>
        ensures pushed { IfOk result (λ _. self.new ≡ record self.old { operands = value ∷ self.old.operands }) }
        ensures err { OnErr result (self.new ≡ self.old) }
        ensures same { self.new ≡ record self.old { operands = self.new.operands } }
        ensures opened { self.new.opened ≡ self.old.opened }
    {
        self.operands.push(value)
    }

    /// Takes the last operand.
    #[inline]
    pub fn pop(&mut self) -> Option<Value>
        ensures some { IfSome result (λ value. self.old ≡ record self.new { operands = value ∷ self.new.operands }) }
        ensures none { IfNone result (self.old.operands ≡ []) }
        ensures kept { IfNone result (self.new ≡ self.old) }
        ensures same { self.new ≡ record self.old { operands = self.new.operands } }
        ensures opened { self.new.opened ≡ self.old.opened }
    {
        self.operands.pop()
    }

    /// Takes so many operands, in the order in which they were pushed, if there are so many.
    pub fn pop_all(&mut self, alloc: Global, count: usize) -> Result<Option<Vec<Value>>, Memory>
        ensures taken { (code : Listing) (next : List ValueOfRun → FrameOfRun → EffectOfRun) → IfOk result (λ taken.
            pop_all count (frame_of code self.old) next
            ≡ elim taken [ None ↦ Stuck | Some values ↦ next values.items (frame_of code self.new) ]) }
        ensures kept { IfOk result (λ taken. IfNone taken (self.new ≡ self.old)) }
        ensures err { OnErr result (self.new ≡ self.old) }
        ensures same { self.new ≡ record self.old { operands = self.new.operands } }
        ensures opened { self.new.opened ≡ self.old.opened }
    {
        self.operands.pop_all(alloc, count)
    }

    /// The local of a number, if there is one.
    #[inline]
    pub fn local(&self, k: usize) -> Option<Value>
        ensures { result ≡ slice_get self.now.locals k }
    {
        self.locals.get(k)
    }

    /// Sets the local of a number, if there is one.
    #[inline]
    pub fn set_local(&mut self, k: usize, value: Value)
        ensures { self.new ≡ record self.old { locals = slice_set self.old.locals k value } }
    {
        self.locals.set(k, value);
    }

    /// The row of the next operation, if one is left; the frame goes on behind it.
    #[inline]
    pub fn next(&mut self, code: &OpList<'_>) -> Option<Row>
        ensures some { IfSome result (λ row.
            rest_at code.now.rows self.old.index ≡ row.op ∷ rest_at code.now.rows self.new.index) }
        ensures none { IfNone result (rest_at code.now.rows self.old.index ≡ []) }
        ensures asks { IfSome result (λ row.
            row.instruction ≡ instruction_of (code_of code.now.program) row.op) }
        ensures goes { IfSome result (λ row.
            GoesBy (code_of code.now.program) code.now.rows row self.new.index) }
        ensures same { self.new ≡ record self.old { index = self.new.index } }
        ensures opened { self.new.opened ≡ self.old.opened }
    {
        match code.at(self.index) {
            Some(row) => {
                self.index = row.next;
                Some(row)
            }
            None => None,
        }
    }

    /// Goes on where the condition of AND, OR, IF or LOOP decides.
    #[inline]
    pub fn branch(&mut self, row: &Row, condition: bool)
        ensures { self.new ≡ record self.old { index = target row.now condition } }
    {
        self.index = target(row, condition);
    }

    /// The object whose monitor it holds: that of a synchronized method's (JLS 8.4.3.6).
    #[tactic(auto, unfolding(scj_model::specs::Effects::monitor_of))]
    pub fn monitor(&self, code: &OpList<'_>) -> Option<Ref>
        ensures { result ≡ monitor_of (code_of code.now.program) (frame_of code.now self.now) }
    {
        match self.body {
            Body::Written(node) => {
                if code.code().layout().is_synchronized(node) {
                    self.this
                } else {
                    None
                }
            }
            Body::Empty => None,
        }
    }
}
