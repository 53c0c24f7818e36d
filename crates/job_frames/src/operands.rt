//! The operands of a frame.

ghost use Rattle.std.specs.Prelude.{◌≡◌, ◌<◌, [], ◌∷◌, ◌++◌, length, reverse, IfSome, IfNone, IfOk, OnErr};

use scj_base::{Memory, Value};
use std::alloc::Global;
use std::marker::Model;

/// The operands of a frame. A contract sees the last one first.
#[derive(Drop)]
pub struct Operands {
    items: Vec<Value>,
}

impl Model for Operands {
    ghost use Rattle.std.specs.Prelude.{List, reverse};
    ghost use Rattle.scj_base.specs.declared.values.Value.{Value as Row};

    ghost Value = { List Row };

    ghost view = { λ a. reverse a.items.items };
}

impl Operands {
    /// No operands.
    pub fn new(alloc: Global) -> Operands
        ensures { result ≡ [] }
    {
        Operands {
            items: Vec::new(alloc),
        }
    }

    /// Puts an operand last.
    #[inline]
    pub fn push(&mut self, value: Value) -> Result<(), Memory>
        ensures pushed { IfOk result (λ _. self.new ≡ value ∷ self.old) }
        ensures err { OnErr result (self.new ≡ self.old) }
    {
        self.items.push(value)?;
        Ok(())
    }

    /// Takes the last operand.
    #[inline]
    pub fn pop(&mut self) -> Option<Value>
        ensures some { IfSome result (λ value. self.old ≡ value ∷ self.new) }
        ensures none { IfNone result (self.old ≡ []) }
        ensures same { IfNone result (self.new ≡ []) }
    {
        self.items.pop()
    }

    /// Takes so many operands, in the order in which they were pushed, if there are so many.
    pub fn pop_all(&mut self, alloc: Global, count: usize) -> Result<Option<Vec<Value>>, Memory>
        ensures some { IfOk result (λ taken. IfSome taken (λ values. self.old ≡ reverse values.items ++ self.new)) }
        ensures count { IfOk result (λ taken. IfSome taken (λ values. length values.items ≡ count)) }
        ensures none { IfOk result (λ taken. IfNone taken (length self.old < count)) }
        ensures kept { IfOk result (λ taken. IfNone taken (self.new ≡ self.old)) }
        ensures err { OnErr result (self.new ≡ self.old) }
    {
        if self.items.len() < count {
            return Ok(None);
        }
        let left = self.items.len() - count;
        let taken = Vec::from_slice(alloc, &self.items.as_slice()[left..])?;
        self.items.truncate(left);
        Ok(Some(taken))
    }
}
