//! The operations of jobs.

ghost use Rattle.std.specs.Prelude.{◌≡◌, true, List};
ghost use Rattle.scj_model.specs.declared.plans.ReadingRow.{ReadingRow as Reading};
ghost use Rattle.scj_model.specs.Code.{Code};
ghost use Rattle.scj_model.specs.Run.{ref_op};
ghost use Rattle.scj_model.specs.Safety.{job_may_act};
ghost use Rattle.scj_model.specs.State.{Job, State};
ghost use Rattle.scope_flow.specs.Facts.{Facts};
ghost use Rattle.mission_sound.specs.SequencerFacts.{SequencerFacts};
ghost use Rattle.scope_sound.specs.Sound.{OperatesSoundly, Sound};

/// Of a program that has what the rules promise: in a sound state each job that may act has an operation with a result,
/// and the state after it is sound: the sequencer's own operations, those of the bodies that it calls, the first
/// operation of a release and all others.
pub fn operations_are_sound()
    ensures { (code : Code) → Facts code → SequencerFacts code → (rows : List Reading) (s : State) (job : Job) →
        Sound code s → job_may_act s job ≡ true → OperatesSoundly code (ref_op code rows s job) }
{}
