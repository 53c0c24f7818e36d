//! How large frames become: in a run of an accepted program none has more than 640 operands or 32 locals.
#![tactic(auto)]

ghost use Rattle.std.specs.Prelude.{ℕ, List};
ghost use Rattle.scj_model.specs.Code.{code_of};
ghost use Rattle.scj_model.specs.Plan.{Plan};
ghost use Rattle.scj_model.specs.State.{State};
ghost use Rattle.scj_model.specs.Choice.{by_list, by_priority};
ghost use Rattle.scj_model.specs.Reached.{Moment, Reached};
ghost use Rattle.frame_sizes.specs.Sizes.{FramesAreSmall};

use accepted_laws::nodes::checked_is_accepted;
use scj_rules::Checked;

/// In each state that a run of an accepted program comes to, whatever the plan is and whoever acts, no frame of a job
/// has more operands or more locals at once than there is room for in a frame.
pub fn frames_are_small(checked: &Checked)
    ensures any_order { (plan : Plan) (choices : List ℕ) (moment : Moment) (s : State) →
        Reached (code_of checked.now.program) plan (by_list choices) moment s → FramesAreSmall s }
    ensures by_priority { (plan : Plan) (moment : Moment) (s : State) →
        Reached (code_of checked.now.program) plan by_priority moment s → FramesAreSmall s }
{
    checked_is_accepted(checked);
}
