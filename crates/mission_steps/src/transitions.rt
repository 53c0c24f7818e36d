//! What follows an operation of the sequencer that is done (JSR 302: Safelet, MissionSequencer, Mission).

ghost use Rattle.std.specs.Prelude.{◌≡◌, ℕ, Bool as Bit, Option as OptionOfRun, option_map};
ghost use Rattle.scj_model.specs.declared.operations.SeqOp.TheVariants.{AllocSafelet, CleanUp, GetNextMission, GetSequencer, Initialize};
ghost use Rattle.scj_model.specs.Sequencer.{goes_to, transition as next_of};
ghost use Rattle.mission_steps.specs.Transitions.{effect_seen, transition_seen};

use scj_base::{Ref, Value};
use scj_model::{Phase, SeqOp};

/// What a transition brings about besides the next phase and operation.
#[derive(Clone, Copy, Debug)]
pub enum SeqEffect {
    /// Nothing else.
    Continues,
    /// This object is the safelet from now on.
    TakesSafelet(Ref),
    /// This object is the sequencer from now on.
    TakesSequencer(Ref),
    /// This object is the mission from now on.
    TakesMission(Ref),
    /// This safelet has no sequencer.
    LacksSequencer(Ref),
    /// The sequencer has no further mission.
    LacksMission,
    /// The memory of this mission is open.
    BeginsMission(Ref),
    /// Execution begins with the next unit.
    BeginsExecution,
    /// Execution is passed over.
    SkipsExecution,
    /// Execution is over.
    EndsExecution,
    /// The memory of the mission is closed.
    ClosesMission,
}

/// What follows an operation of the sequencer.
#[derive(Clone, Copy, Debug)]
pub struct Transition {
    /// The next phase.
    pub phase: Phase,
    /// The next operation.
    pub operation: SeqOp,
    /// What it brings about.
    pub effect: SeqEffect,
}

/// A transition.
fn goes_to(phase: Phase, operation: SeqOp, effect: SeqEffect) -> Option<Transition>
    ensures { option_map transition_seen result ≡ goes_to phase operation (effect_seen effect) }
{
    Some(Transition {
        phase,
        operation,
        effect,
    })
}

/// The safelet is made.
#[tactic(auto, unfolding(scj_model::specs::Sequencer::transition))]
fn after_alloc_safelet(value: Value) -> Option<Transition>
    ensures { (known : OptionOfRun ℕ) (skips : Bit) →
        option_map transition_seen result ≡ next_of known skips AllocSafelet value }
{
    match value {
        Value::At(r) => goes_to(
            Phase::Boot,
            SeqOp::ConstructSafelet(r),
            SeqEffect::TakesSafelet(r),
        ),
        _ => None,
    }
}

/// `getSequencer` has left with this value.
#[tactic(auto, unfolding(scj_model::specs::Sequencer::transition))]
fn after_get_sequencer(safelet: Ref, value: Value) -> Option<Transition>
    ensures { (known : OptionOfRun ℕ) (skips : Bit) → option_map transition_seen result ≡ next_of known skips
        (GetSequencer safelet) value }
{
    match value {
        Value::At(q) => goes_to(
            Phase::Next,
            SeqOp::GetNextMission(q),
            SeqEffect::TakesSequencer(q),
        ),
        _ => goes_to(
            Phase::Over,
            SeqOp::Finished,
            SeqEffect::LacksSequencer(safelet),
        ),
    }
}

/// `getNextMission` has left with this value.
#[tactic(auto, unfolding(scj_model::specs::Sequencer::transition))]
fn after_get_next_mission(sequencer: Ref, value: Value) -> Option<Transition>
    ensures { (known : OptionOfRun ℕ) (skips : Bit) → option_map transition_seen result ≡ next_of known skips
        (GetNextMission sequencer) value }
{
    match value {
        Value::At(m) => goes_to(
            Phase::Next,
            SeqOp::OpenMission(m),
            SeqEffect::TakesMission(m),
        ),
        _ => goes_to(Phase::Over, SeqOp::Finished, SeqEffect::LacksMission),
    }
}

/// `initialize` has left. `skips` says that there is nothing to execute, or that an end was asked.
#[tactic(auto, unfolding(scj_model::specs::Sequencer::transition))]
fn after_initialize(skips: bool, mission: Ref, value: Value) -> Option<Transition>
    ensures { (known : OptionOfRun ℕ) → option_map transition_seen result ≡ next_of known skips
        (Initialize mission) value }
{
    if skips {
        goes_to(
            Phase::Cleanup,
            SeqOp::CleanUp(mission),
            SeqEffect::SkipsExecution,
        )
    } else {
        goes_to(Phase::Exec, SeqOp::Execute, SeqEffect::BeginsExecution)
    }
}

/// `cleanUp` has left.
#[tactic(auto, unfolding(scj_model::specs::Sequencer::transition))]
fn after_clean_up(known: Option<Ref>, mission: Ref, value: Value) -> Option<Transition>
    ensures { (skips : Bit) → option_map transition_seen result ≡ next_of known skips (CleanUp mission) value }
{
    match known {
        Some(q) => goes_to(
            Phase::Next,
            SeqOp::GetNextMission(q),
            SeqEffect::ClosesMission,
        ),
        None => None,
    }
}

/// The transition after an operation that is done with this value. `known` is the sequencer object, and `skips` says
/// that there is nothing to execute, or that an end was asked.
#[tactic(auto, unfolding(scj_model::specs::Sequencer::transition))]
pub(crate) fn what_follows(
    known: Option<Ref>,
    skips: bool,
    operation: SeqOp,
    value: Value,
) -> Option<Transition>
    ensures { option_map transition_seen result ≡ next_of known skips operation value }
{
    match operation {
        SeqOp::OpenImmortal => goes_to(Phase::Boot, SeqOp::AllocSafelet, SeqEffect::Continues),
        SeqOp::AllocSafelet => after_alloc_safelet(value),
        SeqOp::ConstructSafelet(r) => {
            goes_to(
                Phase::Boot,
                SeqOp::InitializeApplication(r),
                SeqEffect::Continues,
            )
        }
        SeqOp::InitializeApplication(r) => goes_to(
            Phase::Boot,
            SeqOp::GetSequencer(r),
            SeqEffect::Continues,
        ),
        SeqOp::GetSequencer(r) => after_get_sequencer(r, value),
        SeqOp::GetNextMission(r) => after_get_next_mission(r, value),
        SeqOp::OpenMission(r) => goes_to(
            Phase::Init,
            SeqOp::Initialize(r),
            SeqEffect::BeginsMission(r),
        ),
        SeqOp::Initialize(r) => after_initialize(skips, r, value),
        SeqOp::CleanUp(r) => after_clean_up(known, r, value),
        SeqOp::Execute | SeqOp::Finished => None,
    }
}
