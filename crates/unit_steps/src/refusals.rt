//! Objects for which an area has no room: what would have been in use with them.

ghost use Rattle.std.specs.Prelude.{◌≡◌, ℕ, ◌^◌, ◌+◌, ◌<◌, ◌∷◌, List, IfOk, Some, false, length, option_map, slice_get, true};
ghost use Rattle.scj_rules.specs.Words.{is_among};
ghost use Rattle.scj_rules.specs.Layout.{size_with_slots};
ghost use Rattle.scj_model.specs.declared.operations.SeqOp.TheVariants.{AllocSafelet};
ghost use Rattle.scj_model.specs.Code.{code_of};
ghost use Rattle.op_list.specs.Listed.{Listing};
ghost use Rattle.scj_model.specs.Memory.{has_room, used};
ghost use Rattle.scj_model.specs.State.{MemoryArea, State as StateSeen};
ghost use Rattle.area_needs.specs.Refusals.{refused_by, refused_in, refused_own};
ghost use Rattle.region_heap.specs.Contents.{is_open_area, with_memory};
ghost use Rattle.job_frames.specs.EffectsSeen.{effect_seen};
ghost use Rattle.job_frames.specs.declared.frames.Frame.{Frame as StoredFrame};
ghost use Rattle.job_frames.specs.Frames.{frame_of};
ghost use Rattle.run_state.specs.Seen.{state_of};
ghost use Rattle.run_state.specs.Standing.{IsTopOpen};
ghost use Rattle.unit_steps.specs.Refused.{Refuses, went};
ghost use Rattle.unit_steps.specs.Standing.{EffectStands};

use area_needs::Refusal;
use job_frames::{Activity, Effect};
use object_slots::new_slots;
use op_list::OpList;
use region_heap::RegionHeap;
use run_state::RunState;
use scj_base::{AreaId, ClassId, Memory, ScopeId, Value};
use scj_model::SeqOp;
use std::alloc::Global;

/// What the operation of a unit came to.
#[derive(Clone, Copy, Debug)]
pub enum Acted {
    /// It has no result.
    Stuck,
    /// It was done. The refusal is there where an area had no room for the object that it was to make.
    Done(Option<Refusal>),
}

/// What an operation came to that was done or not, with what it was refused.
pub(crate) fn came_to(is_done: bool, refusal: Option<Refusal>) -> Acted
    ensures went { went result ≡ is_done }
    ensures refused { Refuses result refusal }
{
    if is_done {
        Acted::Done(refusal)
    } else {
        Acted::Stuck
    }
}

/// The scope of an open area.
fn scope_of(memory: &RegionHeap, area: AreaId) -> Result<ScopeId, Memory>
    requires { is_open_area memory.now area ≡ true }
    ensures { IfOk result
        (λ scope. option_map (λ (x : MemoryArea). x.scope) (slice_get memory.now.areas area) ≡ Some scope) }
{
    let mut i: usize = 0;
    while let Some(other) = memory.area(i) {
        if memory.area_with_scope(other.name, &[area]).is_some() {
            return Ok(other.name);
        }
        let Some(next) = i.checked_add(1) else {
            return Err(Memory);
        };
        i = next;
    }
    unreachable!()
}

/// What would be in use in an area that has no room for so many slots. The memory tells it where it refuses them.
fn bytes_refused(memory: &mut RegionHeap, area: AreaId, count: usize) -> Result<u64, Memory>
    requires open { is_open_area memory.old area ≡ true }
    requires numbers { length memory.old.objects < 2 ^ 31 }
    requires full { (s : StateSeen) → has_room (with_memory s memory.old) area count ≡ false }
    ensures same { memory.new ≡ memory.old }
    ensures bytes { IfOk result (λ bytes. (s : StateSeen) →
        bytes ≡ used (with_memory s memory.old) area + size_with_slots count) }
{
    if count > u32::MAX as usize {
        return Err(Memory);
    }
    match memory.alloc_array(ClassId::at(0), area, count, Value::Null) {
        Ok(_made) => unreachable!(),
        Err(full) => match full.used.checked_add(full.asked) {
            Some(bytes) => Ok(bytes),
            None => Err(Memory),
        },
    }
}

/// What an area refuses of an object with so many slots.
#[tactic(auto, unfolding(area_needs::specs::Refusals::refused_in))]
fn refused_in(
    memory: &mut RegionHeap,
    area: AreaId,
    count: usize,
) -> Result<Option<Refusal>, Memory>
    requires open { is_open_area memory.old area ≡ true }
    requires numbers { length memory.old.objects < 2 ^ 31 }
    ensures same { memory.new ≡ memory.old }
    ensures refused { IfOk result (λ refusal. (s : StateSeen) →
        refusal ≡ refused_in (with_memory s memory.old) area count) }
{
    if memory.has_room(area, count) {
        return Ok(None);
    }
    let scope = scope_of(memory, area)?;
    let bytes = bytes_refused(memory, area, count)?;
    Ok(Some(Refusal { scope, bytes }))
}

/// The same of the area in which the highest frame makes objects.
fn refused_on_top(
    memory: &mut RegionHeap,
    activity: &Activity,
    count: usize,
) -> Result<Option<Refusal>, Memory>
    requires open { IsTopOpen memory.old activity.now.frames }
    requires numbers { length memory.old.objects < 2 ^ 31 }
    ensures same { memory.new ≡ memory.old }
    ensures refused { (s : StateSeen) (f : StoredFrame) (below : List StoredFrame) → activity.now.frames ≡ f ∷ below →
        IfOk result (λ refusal. refusal ≡ refused_in (with_memory s memory.old) f.area count) }
{
    match activity.frames.top() {
        Some(frame) => {
            let area = frame.area;
            refused_in(memory, area, count)
        }
        None => Ok(None),
    }
}

/// What an effect is refused.
#[tactic(auto, unfolding(area_needs::specs::Refusals::refused_by, job_frames::specs::EffectsSeen::effect_seen))]
fn refused_by(
    memory: &mut RegionHeap,
    activity: &Activity,
    effect: &Effect,
) -> Result<Option<Refusal>, Memory>
    requires effect { EffectStands memory.old activity.now effect.now }
    requires numbers { length memory.old.objects < 2 ^ 31 }
    ensures same { memory.new ≡ memory.old }
    ensures refused { (code : Listing) (s : StateSeen) (f : StoredFrame) (below : List StoredFrame) →
        activity.now.frames ≡ f ∷ below →
        IfOk result (λ refusal. refusal
        ≡ refused_by (with_memory s memory.old) (effect_seen code effect.now (frame_of code f))) }
{
    match effect {
        Effect::Makes { slots, .. } => refused_on_top(memory, activity, slots.len()),
        Effect::MakesArray { count, .. } => refused_on_top(memory, activity, *count as usize),
        _ => Ok(None),
    }
}

/// What an effect of a job with this activity is refused.
pub(crate) fn refused_before(
    state: &mut RunState,
    activity: &Activity,
    effect: &Effect,
) -> Result<Option<Refusal>, Memory>
    requires effect { EffectStands state.old.memory activity.now effect.now }
    requires numbers { length state.old.memory.objects < 2 ^ 31 }
    ensures same { state.new ≡ state.old }
    ensures refused { (code : Listing) (s : StateSeen) (f : StoredFrame) (below : List StoredFrame) →
        activity.now.frames ≡ f ∷ below →
        IfOk result (λ refusal. refusal
        ≡ refused_by (with_memory s state.old.memory) (effect_seen code effect.now (frame_of code f))) }
{
    refused_by(&mut state.memory, activity, effect)
}

/// What the safelet is refused.
fn refused_safelet(
    alloc: Global,
    code: &OpList<'_>,
    state: &mut RunState,
) -> Result<Option<Refusal>, Memory>
    requires areas { (a : ℕ) → is_among a state.old.activity.areas ≡ true → is_open_area state.old.memory a ≡ true }
    requires numbers { length state.old.memory.objects < 2 ^ 31 }
    ensures same { IfOk result (λ _. state.new ≡ state.old) }
    ensures refused { IfOk result (λ refusal. refusal
        ≡ refused_own (code_of code.now.program) (state_of code.now state.old) AllocSafelet) }
{
    let Some(class) = code.code().layout().safelet() else {
        return Ok(None);
    };
    let Some(area) = state.activity.areas.innermost() else {
        return Ok(None);
    };
    let slots = new_slots(alloc, code.code().layout(), class)?;
    let refusal = refused_in(&mut state.memory, area, slots.len())?;
    Ok(refusal)
}

/// What the sequencer's own operation is refused.
#[tactic(auto, unfolding(area_needs::specs::Refusals::refused_own))]
pub(crate) fn refused_own(
    alloc: Global,
    code: &OpList<'_>,
    state: &mut RunState,
) -> Result<Option<Refusal>, Memory>
    requires areas { (a : ℕ) → is_among a state.old.activity.areas ≡ true → is_open_area state.old.memory a ≡ true }
    requires numbers { length state.old.memory.objects < 2 ^ 31 }
    ensures same { IfOk result (λ _. state.new ≡ state.old) }
    ensures refused { IfOk result (λ refusal. refusal
        ≡ refused_own (code_of code.now.program) (state_of code.now state.old) state.old.operation) }
{
    match state.operation {
        SeqOp::AllocSafelet => refused_safelet(alloc, code, state),
        _other => Ok(None),
    }
}
