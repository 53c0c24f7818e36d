//! Effects: what one operation does, before it is done to the state.

use crate::frames::NewFrame;
use scj_base::{ClassId, NodeId, Ref, RunFault, ScopeId, Value};
use scj_rules::SlotKind;

/// What one operation does besides the changes of its frame, which are made already.
#[derive(Drop)]
pub enum Effect {
    /// The frame goes on.
    Goes,
    /// It prints.
    Prints {
        label: NodeId,
        value: i32,
    },
    /// It makes an object in its area, with these slots, of which the hidden fields are the first.
    Makes {
        class: ClassId,
        slots: Vec<Value>,
    },
    /// It makes an array of so many elements in its area. They are listed when the area is known to have room for them.
    MakesArray {
        class: ClassId,
        kind: SlotKind,
        count: u32,
    },
    /// It stores a value into a slot or an element, counted with the hidden fields.
    Stores {
        r: Ref,
        slot: usize,
        value: Value,
    },
    /// It stores a value into a static field.
    StoresStatic {
        index: usize,
        value: Value,
    },
    /// It sets the hidden fields of an object.
    SetsHidden {
        r: Ref,
        hidden: Vec<u64>,
    },
    /// It sets the ceiling of an object.
    SetsCeiling {
        r: Ref,
        ceiling: u8,
    },
    /// It calls.
    Calls {
        call: NewFrame,
        arguments: Vec<Value>,
    },
    /// It opens an area of this scope and so many bytes inside its own, and calls in it, without arguments.
    Opens {
        call: NewFrame,
        scope: ScopeId,
        bytes: u64,
    },
    /// It leaves, with a value if it has one.
    Leaves {
        value: Option<Value>,
    },
    /// It asks that a handler is registered.
    AsksRegistration {
        r: Ref,
    },
    /// It asks that a handler is released.
    AsksRelease {
        r: Ref,
    },
    /// It asks that a mission ends.
    AsksTermination {
        r: Ref,
    },
    /// A fault.
    Faults {
        fault: RunFault,
    },
    /// It can't be done. This never happens in an accepted program.
    Stuck,
}
