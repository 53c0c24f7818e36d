//! What a unit does to the releases, whatever the program is. The law is the contract of a function that does nothing.

ghost use Rattle.std.specs.Prelude.{◌≡◌, ◌+◌, ℕ, false};
ghost use Rattle.scj_model.specs.Code.{Code};
ghost use Rattle.scj_model.specs.Plan.{Plan};
ghost use Rattle.scj_model.specs.Choice.{by_priority};
ghost use Rattle.scj_model.specs.Run.{has_ended, run};
ghost use Rattle.release_turns.specs.Choices.{at_choice};
ghost use Rattle.release_turns.specs.UnitSteps.{UnitStep};

/// In a unit of a run that goes on, a release keeps its place and its handler. It keeps its status unless it acts or is
/// dropped while it waits. New releases wait behind all others. The mission changes outside execution alone.
pub fn units_move_releases()
    ensures { (code : Code) (plan : Plan) (t : ℕ) → has_ended (run code plan by_priority t) ≡ false →
        (run code plan by_priority (t + 1)).is_stuck ≡ false →
        UnitStep (at_choice code plan t) (at_choice code plan (t + 1)) }
{}
