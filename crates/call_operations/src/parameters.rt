//! The parameters of handlers and sequencers (JSR 302: PriorityParameters, PeriodicParameters, StorageParameters).

ghost use Rattle.std.specs.Prelude.{◌≡◌, ◌∷◌, [], ℕ, IfOk, None, Some, false, if◌then◌else◌, not, pos, true};
ghost use Rattle.std.specs.Int.{is_negative};
ghost use Rattle.scj_base.specs.declared.faults.RunFault.TheVariants.{BadPriority, NegativeSize};
ghost use Rattle.scj_base.specs.declared.values.Value.TheVariants.{Int};
ghost use Rattle.scj_model.specs.State.{Frame as FrameOfRun};
ghost use Rattle.scj_model.specs.Effects.{Stuck};
ghost use Rattle.scj_model.specs.Operations.{is_priority, periodic_parameters, times_of};
ghost use Rattle.op_list.specs.Listed.{Listing};
ghost use Rattle.job_frames.specs.EffectsSeen.{Does};
ghost use Rattle.job_frames.specs.declared.frames.Frame.{Frame as StoredFrame};
ghost use Rattle.job_frames.specs.Frames.{frame_of};
ghost use Rattle.region_heap.specs.Contents.{hidden_slots};
ghost use Rattle.call_operations.specs.Continued.{keeping, passing};
ghost use Rattle.call_operations.specs.Periodic.{keeping_periodic};

use crate::numbers::times_of;
use job_frames::Effect;
use scj_base::{Memory, Ref, RunFault, Value};
use std::alloc::Global;
use value_operators::framework_numbers::is_priority;

/// The fault of a priority and a storage, if one of them isn't right.
fn fault_of(priority: i32, storage: i32) -> Option<RunFault>
    ensures { result ≡ (if not (is_priority priority) then Some BadPriority
        else (if is_negative storage then Some NegativeSize else None)) }
{
    if !is_priority(priority) {
        return Some(RunFault::BadPriority);
    }
    if storage < 0 {
        return Some(RunFault::NegativeSize);
    }
    None
}

/// A priority and a storage as hidden fields.
#[tactic(auto, using(crate::proofs::NumberLemmas::priority_whole, crate::proofs::NumberLemmas::whole_is))]
fn hidden_of(alloc: Global, priority: i32, storage: i32) -> Result<Vec<u64>, Memory>
    requires priority { is_priority priority ≡ true }
    requires storage { is_negative storage ≡ false }
    ensures { IfOk result (λ hidden. hidden_slots hidden.items ≡ Int priority ∷ Int storage ∷ []) }
{
    let hidden = vec![in alloc;
        u64::from(priority.unsigned_abs()),
        u64::from(storage.unsigned_abs()),
    ]?;
    Ok(hidden)
}

/// The parameters of a periodic handler: its priority, the milliseconds and nanoseconds of its start and of its period,
/// its storage.
#[derive(Clone, Copy)]
pub struct Periodic {
    priority: i32,
    start_ms: i32,
    start_ns: i32,
    period_ms: i32,
    period_ns: i32,
    storage: i32,
}

/// The parameters that these values are, if they are any.
fn periodic_of(values: &[Value]) -> Option<Periodic>
    ensures { (r : ℕ) (f : FrameOfRun) → periodic_parameters f r values.now
        ≡ elim result [ None ↦ Stuck | Some parameters ↦ keeping_periodic r parameters f ] }
{
    match values {
        [
            Value::Int(priority),
            Value::Int(start_ms),
            Value::Int(start_ns),
            Value::Int(period_ms),
            Value::Int(period_ns),
            Value::Int(storage),
        ] => Some(Periodic {
            priority: *priority,
            start_ms: *start_ms,
            start_ns: *start_ns,
            period_ms: *period_ms,
            period_ns: *period_ns,
            storage: *storage,
        }),
        _ => None,
    }
}

/// The start and the period that these parameters name, where they are right.
fn times_in(parameters: &Periodic) -> Option<(u64, u64)>
    ensures { result ≡ times_of parameters.now.start_ms parameters.now.start_ns parameters.now.period_ms
        parameters.now.period_ns }
{
    times_of(
        parameters.start_ms,
        parameters.start_ns,
        parameters.period_ms,
        parameters.period_ns,
    )
}

/// These parameters as hidden fields, with the start and the period that they name.
#[tactic(auto, using(crate::proofs::NumberLemmas::priority_whole, crate::proofs::NumberLemmas::whole_is))]
fn hidden_in(
    alloc: Global,
    parameters: &Periodic,
    start: u64,
    period: u64,
) -> Result<Vec<u64>, Memory>
    requires priority { is_priority parameters.now.priority ≡ true }
    requires storage { is_negative parameters.now.storage ≡ false }
    ensures { IfOk result (λ hidden. hidden_slots hidden.items
        ≡ Int parameters.now.priority ∷ Int parameters.now.storage ∷ Int (pos start) ∷ Int (pos period) ∷ []) }
{
    let hidden = vec![in alloc;
        u64::from(parameters.priority.unsigned_abs()),
        u64::from(parameters.storage.unsigned_abs()),
        start,
        period,
    ]?;
    Ok(hidden)
}

/// These parameters are kept, where they are right.
fn keeps(alloc: Global, r: Ref, parameters: &Periodic) -> Result<Effect, Memory>
    ensures { (code : Listing) (frame : StoredFrame) → IfOk result (λ effect. Does code
        (keeping_periodic r parameters.now (frame_of code frame)) effect frame) }
{
    if !is_priority(parameters.priority) {
        return Ok(Effect::Faults {
            fault: RunFault::BadPriority,
        });
    }
    let Some((start, period)) = times_in(parameters) else {
        return Ok(Effect::Faults {
            fault: RunFault::BadPeriod,
        });
    };
    if parameters.storage < 0 {
        return Ok(Effect::Faults {
            fault: RunFault::NegativeSize,
        });
    }
    let hidden = hidden_in(alloc, parameters, start, period)?;
    Ok(Effect::SetsHidden { r, hidden })
}

/// The parameters of a periodic handler are kept, where they are right.
pub fn periodic_parameters(alloc: Global, r: Ref, values: &[Value]) -> Result<Effect, Memory>
    ensures { (code : Listing) (frame : StoredFrame) → IfOk result (λ effect.
        Does code (periodic_parameters (frame_of code frame) r values.now) effect frame) }
{
    match periodic_of(values) {
        Some(parameters) => {
            let effect = keeps(alloc, r, &parameters)?;
            Ok(effect)
        }
        None => Ok(Effect::Stuck),
    }
}

/// The parameters of an aperiodic handler: its priority and its storage.
pub fn aperiodic_parameters(alloc: Global, r: Ref, values: &[Value]) -> Result<Effect, Memory>
    ensures { (code : Listing) (frame : StoredFrame) → IfOk result (λ effect. Does code
        (keeping r values.now (frame_of code frame)) effect frame) }
{
    match values {
        [Value::Int(priority), Value::Int(storage)] => match fault_of(*priority, *storage) {
            Some(fault) => Ok(Effect::Faults { fault }),
            None => {
                let hidden = hidden_of(alloc, *priority, *storage)?;
                Ok(Effect::SetsHidden { r, hidden })
            }
        },
        _ => Ok(Effect::Stuck),
    }
}

/// The parameters of a sequencer: its priority and its storage, which nothing keeps.
pub fn sequencer_parameters(values: &[Value]) -> Effect
    ensures { (code : Listing) (frame : StoredFrame) →
        Does code (passing values.now (frame_of code frame)) result frame }
{
    match values {
        [Value::Int(priority), Value::Int(storage)] => match fault_of(*priority, *storage) {
            Some(fault) => Effect::Faults { fault },
            None => Effect::Goes,
        },
        _ => Effect::Stuck,
    }
}
