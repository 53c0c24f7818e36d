//! What the checker promises of runs.

ghost use Rattle.std.specs.Prelude.{◌≡◌, true, ℕ, List, Some};
ghost use Rattle.scj_tree.specs.Forest.{Forest};
ghost use Rattle.scj_model.specs.declared.plans.ReadingRow.{ReadingRow as Reading};
ghost use Rattle.scj_model.specs.Code.{code_of};
ghost use Rattle.scj_model.specs.Choice.{by_list};
ghost use Rattle.scj_model.specs.Plan.{Plan};
ghost use Rattle.scj_model.specs.Reached.{Moment, Reached};
ghost use Rattle.scj_model.specs.Run.{ref_op};
ghost use Rattle.scj_model.specs.Sequencer.{phase_after};
ghost use Rattle.scj_model.specs.Safety.{IsSafe, job_may_act, passes};
ghost use Rattle.scj_model.specs.State.{Job, State, TheSequencer, is_over};
ghost use Rattle.scj_model.specs.Steps.{Step};
ghost use Rattle.accepted_laws.specs.Programs.{IsAcceptedProgram};
ghost use Rattle.scope_sound.specs.FramedAndPlaced.{Framed, Placed};
ghost use Rattle.scope_sound.specs.Sound.{Sound, SoundAt};

use accepted_laws::nodes::checked_is_accepted;
use scj_rules::Checked;

/// A sealed program is safe. Whatever the plan, and whichever release acts in each unit: no job is ever stuck, and the
/// sequencer always goes on; no reference that can be used leads into a closed area, and one in a frame leads into an
/// area on the list of the frame's own job; and no store lets a reference outlive its object. And where the most urgent
/// release acts, monitors exclude one another, at most 28 releases are started at a time, and areas are closed in the
/// reverse order of their opening.
pub fn law_safe(checked: &Checked)
    ensures { IsSafe (code_of checked.now.program) }
{
    checked_is_accepted(checked);
}

/// The same of each accepted program.
pub fn accepted_programs_are_safe()
    ensures { (forest : Forest) → IsAcceptedProgram forest → IsSafe (code_of forest) }
{}

/// Whatever the plan, and whichever release is named in each unit: each state that a run comes to is sound. So each of
/// its jobs is framed, with its list of areas, its frames, their references and what called them as the rules say; and
/// all its objects and areas are placed.
pub fn reached_states_are_framed_and_placed(checked: &Checked)
    ensures sound { (plan : Plan) (choices : List ℕ) (moment : Moment) (s : State) →
        Reached (code_of checked.now.program) plan (by_list choices) moment s →
        SoundAt (code_of checked.now.program) moment s }
    ensures framed { (plan : Plan) (choices : List ℕ) (moment : Moment) (s : State) →
        Reached (code_of checked.now.program) plan (by_list choices) moment s → (job : Job) →
        Framed (code_of checked.now.program) s job }
    ensures placed { (plan : Plan) (choices : List ℕ) (moment : Moment) (s : State) →
        Reached (code_of checked.now.program) plan (by_list choices) moment s →
        Placed (code_of checked.now.program) s }
{
    checked_is_accepted(checked);
}

/// In a sound state each operation of a job that may act leaves this job framed: its values and its current area are
/// where the rules say, on its own list of areas. Where an operation of the sequencer ends the run, by a fault, and where
/// what follows one ends it, its frames and its list are as they were.
pub fn law_framed(checked: &Checked)
    ensures framed { (rows : List Reading) (s : State) (job : Job) (step : Step) →
        Sound (code_of checked.now.program) s → job_may_act s job ≡ true →
        ref_op (code_of checked.now.program) rows s job ≡ Some step →
        Framed (code_of checked.now.program) step.state job }
    ensures halted { (rows : List Reading) (s : State) (step : Step) → Sound (code_of checked.now.program) s →
        job_may_act s TheSequencer ≡ true → ref_op (code_of checked.now.program) rows s TheSequencer ≡ Some step →
        is_over step.state.phase ≡ true → step.state.activity ≡ s.activity }
    ensures ended { (s : State) (step : Step) → phase_after (code_of checked.now.program) s ≡ Some step →
        is_over step.state.phase ≡ true → step.state.activity ≡ s.activity }
{
    checked_is_accepted(checked);
}

/// In a sound state each operation of a job that may act leaves all objects placed where the rules say, and what it
/// stores may be stored.
pub fn law_placed(checked: &Checked)
    ensures placed { (rows : List Reading) (s : State) (job : Job) (step : Step) →
        Sound (code_of checked.now.program) s → job_may_act s job ≡ true →
        ref_op (code_of checked.now.program) rows s job ≡ Some step → Placed (code_of checked.now.program) step.state }
    ensures passes { (rows : List Reading) (s : State) (job : Job) → Sound (code_of checked.now.program) s →
        job_may_act s job ≡ true → passes (code_of checked.now.program) rows s job ≡ true }
{
    checked_is_accepted(checked);
}
