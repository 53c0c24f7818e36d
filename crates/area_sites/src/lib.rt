//! Where the operations of a run are situated: what they make lies in open areas. The law is the contract of a function
//! that does nothing but to see that the program is accepted.
#![tactic(auto)]

ghost use Rattle.scj_model.specs.Choice.{by_priority};
ghost use Rattle.scj_model.specs.Code.{code_of};
ghost use Rattle.scj_model.specs.Plan.{Plan};
ghost use Rattle.scj_model.specs.Reached.{Arrived, Reached};
ghost use Rattle.scj_model.specs.State.{State};
ghost use Rattle.area_growth.specs.Growth.{AreSituated};

use accepted_laws::nodes::checked_is_accepted;
use scj_rules::Checked;

/// In each state after the arrivals of a unit what the operations make lies in open areas, and the hidden fields that
/// they set are there.
pub fn operations_are_situated(checked: &Checked)
    ensures { (plan : Plan) (s : State) → Reached (code_of checked.now.program) plan by_priority Arrived s →
        AreSituated (code_of checked.now.program) plan.readings s }
{
    checked_is_accepted(checked);
}
