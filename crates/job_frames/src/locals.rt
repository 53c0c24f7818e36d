//! The locals of a frame.

ghost use Rattle.std.specs.Prelude.{◌≡◌, ◌++◌, ◌-◌, length, replicate, slice_get, slice_set, IfOk};
ghost use Rattle.scj_base.specs.declared.values.Value.TheVariants.{Null as no_object};

use scj_base::{Memory, Value};
use std::marker::Model;

/// The locals of a frame, each at its number. A contract sees them as a list.
#[derive(Drop)]
pub struct Locals {
    items: Vec<Value>,
}

impl Model for Locals {
    ghost use Rattle.std.specs.Prelude.{List};
    ghost use Rattle.scj_base.specs.declared.values.Value.{Value as Row};

    ghost Value = { List Row };

    ghost view = { λ a. a.items.items };
}

impl Locals {
    /// The arguments of a call, and behind them null until there are so many.
    pub fn new(arguments: Vec<Value>, count: usize) -> Result<Locals, Memory>
        ensures { IfOk result (λ locals. locals
            ≡ arguments.items ++ replicate (count - length arguments.items) no_object) }
    {
        let mut items = arguments;
        if items.len() < count {
            items.resize(count, Value::Null)?;
        }
        Ok(Locals { items })
    }

    /// The local of a number, if there is one.
    #[inline]
    pub fn get(&self, k: usize) -> Option<Value>
        ensures { result ≡ slice_get self.now k }
    {
        self.items.get(k).copied()
    }

    /// Sets the local of a number, if there is one.
    #[inline]
    pub fn set(&mut self, k: usize, value: Value)
        ensures { self.new ≡ slice_set self.old k value }
    {
        if let Some(local) = self.items.get_mut(k) {
            *local = value;
        }
    }
}
