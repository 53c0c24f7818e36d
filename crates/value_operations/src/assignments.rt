//! Assignments (JLS 15.26, 4.12.5).

ghost use Rattle.std.specs.Prelude.{◌≡◌, ℕ, List};
ghost use Rattle.scj_rules.specs.Layout.{slot_of};
ghost use Rattle.scj_model.specs.declared.plans.ReadingRow.{ReadingRow as Reading};
ghost use Rattle.scj_model.specs.Code.{code_of};
ghost use Rattle.scj_model.specs.State.{Object as Listed};
ghost use Rattle.scj_model.specs.Effects.{Stores, given};
ghost use Rattle.op_list.specs.Listed.{Listing};
ghost use Rattle.op_list.specs.Meanings.{init, put, put_static, store, zero_local};
ghost use Rattle.region_heap.specs.Contents.{live_object};
ghost use Rattle.job_frames.specs.Frames.{frame_of};
ghost use Rattle.job_frames.specs.EffectsSeen.{Does, world};

use crate::node_queries::slot_of;
use job_frames::{Effect, Frame};
use op_list::OpList;
use region_heap::RegionHeap;
use scj_base::{FieldId, Ref, RunFault, Value};
use scj_rules::SlotKind;
use value_operators::default_of;

/// ZERO: a local that is declared without a value begins.
pub fn zero(frame: &mut Frame, k: u8, kind: SlotKind) -> Effect
    ensures does { (code : Listing) → Does code (zero_local (frame_of code frame.old) k kind) result frame.new }
    ensures opened { frame.new.opened ≡ frame.old.opened }
{
    let start = default_of(kind);
    frame.set_local(usize::from(k), start);
    Effect::Goes
}

/// STORE: the assignment to a local.
#[inline]
pub fn store(frame: &mut Frame, k: u8) -> Effect
    ensures does { (code : Listing) → Does code (store (frame_of code frame.old) k) result frame.new }
    ensures opened { frame.new.opened ≡ frame.old.opened }
{
    let Some(value) = frame.pop() else {
        return Effect::Stuck;
    };
    frame.set_local(usize::from(k), value);
    Effect::Goes
}

/// What an assignment to a field of an object stores.
fn put_into(
    code: &OpList<'_>,
    memory: &RegionHeap,
    frame: &Frame,
    r: Ref,
    field: FieldId,
    value: Value,
) -> Effect
    ensures { Does code.now
        (given (live_object memory.now r) (λ (o : Listed).
        given (slot_of (code_of code.now.program).program o.class field) (λ slot.
        Stores (frame_of code.now frame.now) r slot value)))
        result frame.now }
{
    let Some(object) = memory.object(r) else {
        return Effect::Stuck;
    };
    let Some(slot) = slot_of(code, object.class(), field) else {
        return Effect::Stuck;
    };
    Effect::Stores {
        r,
        slot: slot as usize,
        value,
    }
}

/// PUT: the assignment to an instance field.
pub fn put(code: &OpList<'_>, memory: &RegionHeap, frame: &mut Frame, field: FieldId) -> Effect
    ensures does { (rows : List Reading) (unit : ℕ) →
        Does code.now
        (put (code_of code.now.program) (world memory.now rows unit) (frame_of code.now frame.old) field)
        result frame.new }
    ensures opened { frame.new.opened ≡ frame.old.opened }
{
    let Some(value) = frame.pop() else {
        return Effect::Stuck;
    };
    let Some(object) = frame.pop() else {
        return Effect::Stuck;
    };
    match object {
        Value::At(r) => put_into(code, memory, frame, r, field, value),
        Value::Null => Effect::Faults {
            fault: RunFault::NullPointer,
        },
        _ => Effect::Stuck,
    }
}

/// PUTSTATIC: the assignment to a static field.
pub fn put_static(frame: &mut Frame, index: u32) -> Effect
    ensures does { (code : Listing) → Does code (put_static (frame_of code frame.old) index) result frame.new }
    ensures opened { frame.new.opened ≡ frame.old.opened }
{
    let Some(value) = frame.pop() else {
        return Effect::Stuck;
    };
    Effect::StoresStatic {
        index: index as usize,
        value,
    }
}

/// INIT: the literal of a field of the object that is constructed (JLS 12.5).
pub fn init(
    code: &OpList<'_>,
    memory: &RegionHeap,
    frame: &Frame,
    value: Value,
    field: FieldId,
) -> Effect
    ensures { (rows : List Reading) (unit : ℕ) →
        Does code.now
        (init (code_of code.now.program) (world memory.now rows unit) (frame_of code.now frame.now) value field)
        result frame.now }
{
    let Some(r) = frame.this else {
        return Effect::Stuck;
    };
    put_into(code, memory, frame, r, field, value)
}
