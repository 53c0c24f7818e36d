//! The hidden fields and the other slots of a new object.

ghost use Rattle.std.specs.Prelude.{◌≡◌, ◌++◌, IfOk, OnOk, map};
ghost use Rattle.scj_model.specs.Code.{code_of};
ghost use Rattle.scj_model.specs.Memory.{default_value, new_slots};
ghost use Rattle.object_slots.specs.Slots.{hidden_start};

use object_layout::Layout;
use scj_base::{ClassId, Memory, Value};
use scj_rules::SlotKind;
use std::alloc::Global;
use value_operators::default_of;

/// The slots with which a new object of a class begins. The hidden fields of a handler come first.
pub fn new_slots(alloc: Global, layout: &Layout<'_>, class: ClassId) -> Result<Vec<Value>, Memory>
    ensures { IfOk result (λ slots. slots.items ≡ new_slots (code_of layout.now).program class) }
{
    let mut slots = hidden_start(alloc, layout.hidden(class))?;
    put_defaults(&mut slots, layout.kinds(class))?;
    Ok(slots)
}

/// The hidden fields of a new object that has so many.
#[tactic(auto, unfolding(crate::specs::Slots::hidden_start))]
fn hidden_start(alloc: Global, count: u32) -> Result<Vec<Value>, Memory>
    ensures { IfOk result (λ hidden. hidden.items ≡ hidden_start count) }
{
    let hidden: Vec<Value> = if count == 4 {
        vec![in alloc; Value::Int(1), Value::Int(0), Value::Int(0), Value::Int(1)]?
    } else if count == 2 {
        vec![in alloc; Value::Int(1), Value::Int(0)]?
    } else {
        Vec::new(alloc)
    };
    Ok(hidden)
}

/// Puts the values with which fields that hold this begin behind the others.
fn put_defaults(slots: &mut Vec<Value>, kinds: &[SlotKind]) -> Result<(), Memory>
    ensures { OnOk result (slots.new.items ≡ slots.old.items ++ map default_value kinds.now) }
{
    let mut others = kinds;
    while let [kind, rest @ ..] = others {
        slots.push(default_of(*kind))?;
        others = rest;
    }
    Ok(())
}
