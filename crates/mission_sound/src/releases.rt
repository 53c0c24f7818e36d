//! What is known of handlers and their releases.

ghost use Rattle.std.specs.Prelude.{◌≡◌, ℕ, true, false, Some, slice_get, List};
ghost use Rattle.scj_model.specs.declared.plans.ReadingRow.{ReadingRow as Reading};
ghost use Rattle.scj_model.specs.Code.{Code};
ghost use Rattle.scj_model.specs.Run.{frame_op, start_op};
ghost use Rattle.scj_model.specs.State.{Activity, Job, Release, State, TheSequencer, Waits, activity_of, is_exec};
ghost use Rattle.scj_model.specs.Steps.{Step};
ghost use Rattle.mission_sound.specs.Bases.{Base};
ghost use Rattle.mission_sound.specs.Invariant.{HandlersFine};
ghost use Rattle.mission_sound.specs.Registering.{NextRegistersFine};

/// The next operation of a job that has frames keeps what is known of handlers and releases, where what it registers is
/// a handler in the mission's memory (of the sequencer's own: outside execution); and so does the first operation of a
/// release, in execution.
pub fn operations_leave_handlers()
    ensures operation { (code : Code) (base : Base) (rows : List Reading) (s : State) (job : Job) (activity : Activity)
        (step : Step) → activity_of s job ≡ Some activity → (job ≡ TheSequencer → is_exec s.phase ≡ false) →
        HandlersFine code s base → NextRegistersFine code base rows s activity →
        frame_op code rows s job activity ≡ Some step → HandlersFine code step.state base }
    ensures start { (code : Code) (base : Base) (s : State) (index : ℕ) (r : Release) (step : Step) →
        slice_get s.releases index ≡ Some r → r.status ≡ Waits → is_exec s.phase ≡ true → HandlersFine code s base →
        start_op code s index r ≡ Some step → HandlersFine code step.state base }
{}
