//! Stores.

ghost use Rattle.std.specs.Prelude.{ℕ, Some, List, ◌≡◌, true};
ghost use Rattle.scj_model.specs.declared.plans.ReadingRow.{ReadingRow};
ghost use Rattle.scj_model.specs.Code.{Code};
ghost use Rattle.scj_model.specs.Safety.{frame_passes, passes};
ghost use Rattle.scj_model.specs.State.{Activity, Job, State, activity_of};
ghost use Rattle.scope_flow.specs.Facts.{Facts};
ghost use Rattle.frame_sound.specs.Fine.{MemoryFine, JobFine};
ghost use Rattle.frame_sound.specs.Places.{world_of};
ghost use Rattle.reference_sound.specs.References.{ParentsAreEarlier, ReferencesHold};

/// Where memory and the job's frames are as the rules say, what the next operation of a job stores may be stored: null,
/// a plain value, or a reference to an object that outlives what holds it.
pub fn stores_pass()
    ensures of_frames { (code : Code) → Facts code → (rows : List ReadingRow) (s : State) (base : List ℕ)
        (activity : Activity) → ParentsAreEarlier (world_of s).areas → MemoryFine code s →
        JobFine code (world_of s) base activity → frame_passes code rows s activity ≡ true }
    ensures of_jobs { (code : Code) → Facts code → (rows : List ReadingRow) (s : State) (base : List ℕ) (job : Job) →
        ReferencesHold s base → MemoryFine code s →
        ((activity : Activity) → activity_of s job ≡ Some activity → JobFine code (world_of s) base activity) →
        passes code rows s job ≡ true }
{}
