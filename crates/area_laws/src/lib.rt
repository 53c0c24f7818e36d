//! What holds of the areas of a run in which the most urgent release acts. Each law is the contract of a function that
//! does nothing but to see that the program is accepted.
#![tactic(auto)]

ghost use Rattle.std.specs.Prelude.{◌≡◌, ◌∷◌, ℕ, ◌<◌, ◌≤◌, List, true, false, Some, length, slice_get};
ghost use Rattle.scj_model.specs.declared.handlers.HandlerRow.{HandlerRow as Handler};
ghost use Rattle.scj_model.specs.declared.operations.Op.{Op as Operation};
ghost use Rattle.scj_model.specs.Code.{code_of};
ghost use Rattle.scj_model.specs.Choice.{by_priority};
ghost use Rattle.scj_model.specs.Plan.{Plan};
ghost use Rattle.scj_model.specs.Registry.{handler_row};
ghost use Rattle.scj_model.specs.Reached.{Arrived, Moment, Operated, Reached};
ghost use Rattle.scj_model.specs.Safety.{is_of_open_area};
ghost use Rattle.scj_model.specs.Run.{effect_at};
ghost use Rattle.scj_model.specs.Sequencer.{innermost};
ghost use Rattle.scj_model.specs.State.{Activity, Frame, Job, Release, ReleaseAt, State, TurnOf, Waits, activity_of, is_exec};
ghost use Rattle.area_laws.specs.OpenAreas.{CloseInOrder, ClosesLast, NamesLiveObjects, StandsInOpenAreas, open_count, operand_of};

use accepted_laws::nodes::checked_is_accepted;
use scj_rules::Checked;

/// In each state that a run comes to the areas of each job are open.
pub fn jobs_stand_in_open_areas(checked: &Checked)
    ensures { (plan : Plan) (moment : Moment) (s : State) →
        Reached (code_of checked.now.program) plan by_priority moment s → (job : Job) (activity : Activity) →
        activity_of s job ≡ Some activity → StandsInOpenAreas s activity }
{
    checked_is_accepted(checked);
}

/// What a job closes is each time the last open area: the job that acts, of its frames, the highest first, and the
/// sequencer the memory of a mission that is over.
pub fn areas_close_as_the_last(checked: &Checked)
    ensures release { (plan : Plan) (s : State) → Reached (code_of checked.now.program) plan by_priority Arrived s →
        (index : ℕ) (activity : Activity) → by_priority s ≡ Some (TurnOf index) →
        activity_of s (ReleaseAt index) ≡ Some activity → CloseInOrder s activity.frames }
    ensures sequencer { (plan : Plan) (s : State) → Reached (code_of checked.now.program) plan by_priority Arrived s →
        is_exec s.phase ≡ false → CloseInOrder s s.activity.frames }
    ensures mission { (plan : Plan) (s : State) → Reached (code_of checked.now.program) plan by_priority Operated s →
        is_exec s.phase ≡ false → ClosesLast s (innermost s.activity.areas) }
{
    checked_is_accepted(checked);
}

/// At most 1,794 areas are open: immortal memory, the memory of a mission, and one for each frame of each started
/// release. Fewer are open where an operation may open one: outside execution, where a release is under way that may have
/// one frame more, and where the chosen release is to start.
pub fn few_areas_are_open(checked: &Checked)
    ensures all { (plan : Plan) (moment : Moment) (s : State) →
        Reached (code_of checked.now.program) plan by_priority moment s → open_count s ≤ 1794 }
    ensures outside { (plan : Plan) (moment : Moment) (s : State) →
        Reached (code_of checked.now.program) plan by_priority moment s → is_exec s.phase ≡ false →
        open_count s < 1794 }
    ensures under_way { (plan : Plan) (moment : Moment) (s : State) →
        Reached (code_of checked.now.program) plan by_priority moment s → (index : ℕ) (activity : Activity) →
        activity_of s (ReleaseAt index) ≡ Some activity → length activity.frames < 64 → open_count s < 1794 }
    ensures start { (plan : Plan) (moment : Moment) (s : State) →
        Reached (code_of checked.now.program) plan by_priority moment s → (index : ℕ) (r : Release) (row : Handler) →
        by_priority s ≡ Some (TurnOf index) → slice_get s.releases index ≡ Some r → r.status ≡ Waits →
        handler_row s.registry r.handler ≡ Some row → open_count s < 1794 }
{
    checked_is_accepted(checked);
}

/// The object on which an operation of the sequencer is lies in an open area.
pub fn operations_are_on_live_objects(checked: &Checked)
    ensures { (plan : Plan) (moment : Moment) (s : State) →
        Reached (code_of checked.now.program) plan by_priority moment s → (r : ℕ) →
        operand_of s.operation ≡ Some r → is_of_open_area s r ≡ true }
{
    checked_is_accepted(checked);
}

/// The object on which an operation calls a method, the handler that it asks to register, and the object that it makes
/// lie in open areas.
pub fn effects_name_live_objects(checked: &Checked)
    ensures { (plan : Plan) (s : State) → Reached (code_of checked.now.program) plan by_priority Arrived s →
        (job : Job) (activity : Activity) (f : Frame) (op : Operation) (rest : List Operation) (below : List Frame) →
        activity_of s job ≡ Some activity → activity.frames ≡ f ∷ below → f.rest ≡ op ∷ rest →
        NamesLiveObjects s (effect_at (code_of checked.now.program) plan.readings s f op rest) }
{
    checked_is_accepted(checked);
}
