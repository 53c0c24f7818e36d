//! What happens to the areas, objects and static fields of a run.

use scj_base::{AreaId, ClassId, Ref, ScopeId, Value};

/// A change of the memory of a run.
#[derive(Clone, Copy, Drop)]
pub enum Change<'a> {
    /// The run begins in a store of so many bytes, with these static fields.
    Begun {
        store: u64,
        statics: &'a [Value],
    },
    /// An area is opened.
    Opened {
        scope: ScopeId,
        parent: Option<AreaId>,
        bytes: u64,
    },
    /// An area is closed.
    Closed {
        area: AreaId,
    },
    /// An object is made, with these slots, in the words from one on.
    Made {
        class: ClassId,
        area: AreaId,
        slots: &'a [Value],
        first: usize,
    },
    /// An array is made of so many elements with one value, in the words from one on.
    MadeArray {
        class: ClassId,
        area: AreaId,
        count: usize,
        value: &'a Value,
        first: usize,
    },
    /// A slot of an object is set.
    SetSlot {
        r: Ref,
        slot: usize,
        value: &'a Value,
    },
    /// The first slots of an object are set to these numbers.
    SetHidden {
        r: Ref,
        hidden: &'a [u64],
    },
    /// The ceiling of an object is set.
    SetCeiling {
        r: Ref,
        ceiling: u8,
    },
    /// A static field is set.
    SetStatic {
        index: usize,
        value: &'a Value,
    },
}
