//! The empty state, arrivals, the operations of the sequencer's own, and what follows an operation.

ghost use Rattle.std.specs.Prelude.{◌≡◌, false, []};
ghost use Rattle.scj_model.specs.Arrivals.{arrivals};
ghost use Rattle.scj_model.specs.Code.{Code};
ghost use Rattle.scj_model.specs.Plan.{Plan};
ghost use Rattle.scj_model.specs.Run.{empty_state};
ghost use Rattle.scj_model.specs.Sequencer.{phase_after, sequencer_op};
ghost use Rattle.scj_model.specs.State.{State, is_exec, is_over};
ghost use Rattle.scope_flow.specs.Facts.{Facts};
ghost use Rattle.mission_sound.specs.Invariant.{AfterOperation, Follows, Operates, Settled};
ghost use Rattle.mission_sound.specs.SequencerFacts.{SequencerFacts};

/// The empty state of a program that has what the sequencer asks has the invariant.
pub fn runs_begin_settled()
    ensures { (code : Code) (plan : Plan) → SequencerFacts code → Settled code (empty_state code plan) }
{}

/// The arrivals of a unit keep the invariant.
pub fn arrivals_settle()
    ensures { (code : Code) (plan : Plan) (s : State) → Settled code s → Settled code (arrivals code plan s).state }
{}

/// An operation of the sequencer's own, outside execution and before the end of the run, has a result, and keeps the
/// invariant: it is done, or it calls a body, or a fault halts the run.
pub fn the_sequencer_operates()
    ensures { (code : Code) (s : State) → Facts code → SequencerFacts code → Settled code s → s.activity.frames ≡ [] →
        is_exec s.phase ≡ false → is_over s.phase ≡ false → Operates code (sequencer_op code s s.operation) }
{}

/// What follows an operation in the sequencer has a result, and the next unit begins with the invariant.
pub fn phases_follow()
    ensures { (code : Code) (s : State) → AfterOperation code s → Follows code (phase_after code s) }
{}
