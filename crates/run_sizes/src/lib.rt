//! How large a run becomes: no more objects and no more areas than operations were done, and at most 64 frames a job.
//! Each law is the contract of a function that does nothing.
#![tactic(auto)]

ghost use Rattle.scj_model.specs.Code.{Code};
ghost use Rattle.scj_model.specs.Plan.{Plan};
ghost use Rattle.scj_model.specs.State.{State};
ghost use Rattle.scj_model.specs.Choice.{Policy};
ghost use Rattle.scj_model.specs.Reached.{Moment, Reached};
ghost use Rattle.run_sizes.specs.Depths.{FramesAreFew};
ghost use Rattle.run_sizes.specs.Growth.{IsWithinUnits};

/// A state that a run comes to has no more objects and no more areas than there were operations so far.
pub fn grows_by_units()
    ensures { (code : Code) (plan : Plan) (policy : Policy) (moment : Moment) (s : State) →
        Reached code plan policy moment s → IsWithinUnits moment s }
{}

/// In a state that a run comes to no job has more frames than a job may.
pub fn frames_are_few()
    ensures { (code : Code) (plan : Plan) (policy : Policy) (moment : Moment) (s : State) →
        Reached code plan policy moment s → FramesAreFew s }
{}
