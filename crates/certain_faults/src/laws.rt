//! What is promised of runs. Each law is the contract of a function that does nothing.

ghost use Rattle.std.specs.Prelude.{◌≡◌, ℕ, List, Some};
ghost use Rattle.scj_base.specs.declared.faults.RunFault.{RunFault as Fault};
ghost use Rattle.scj_model.specs.declared.operations.Op.{Op};
ghost use Rattle.scj_model.specs.Code.{Code, code_of, position_of_node};
ghost use Rattle.scj_model.specs.Plan.{Plan};
ghost use Rattle.scj_model.specs.State.{Job, State};
ghost use Rattle.scj_model.specs.Effects.{Faults};
ghost use Rattle.scj_model.specs.Choice.{by_list, by_priority};
ghost use Rattle.scj_model.specs.Run.{effect_at, position_of_op};
ghost use Rattle.scj_model.specs.Reached.{Moment, Reached};
ghost use Rattle.certain_faults.specs.Faults.{FaultsFor, certain_fault};
ghost use Rattle.certain_faults.specs.Next.{IsNext};

use accepted_laws::nodes::checked_is_accepted;
use scj_rules::Checked;

/// In each state that a run of an accepted program comes to, whatever the plan is and whoever acts: where the next
/// operation of a job is that of a node which is certain to end with a fault, its effect is this fault.
pub fn certain_faults_come(checked: &Checked)
    ensures any_order { (plan : Plan) (choices : List ℕ) (moment : Moment) (s : State) (job : Job) (op : Op)
        (fault : Fault) → Reached (code_of checked.now.program) plan (by_list choices) moment s →
        FaultsFor (code_of checked.now.program) op fault → (next : IsNext s job op) →
        effect_at (code_of checked.now.program) plan.readings s next.frame op next.rest ≡ Faults fault }
    ensures by_priority { (plan : Plan) (moment : Moment) (s : State) (job : Job) (op : Op)
        (fault : Fault) → Reached (code_of checked.now.program) plan by_priority moment s →
        FaultsFor (code_of checked.now.program) op fault → (next : IsNext s job op) →
        effect_at (code_of checked.now.program) plan.readings s next.frame op next.rest ≡ Faults fault }
{
    checked_is_accepted(checked);
}

/// A node with a certain fault has the operation of which it is said, and the run tells the fault where the node stands.
pub fn certain_faults_have_operations()
    ensures place { (code : Code) (op : Op) (fault : Fault) (x : FaultsFor code op fault) →
        position_of_op code op ≡ position_of_node code x.id }
    ensures operation { (code : Code) (id : ℕ) (fault : Fault) → certain_fault code id ≡ Some fault →
        (op : Op) × ((x : FaultsFor code op fault) × (x.id ≡ id)) }
{}
