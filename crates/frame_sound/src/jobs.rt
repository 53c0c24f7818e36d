//! The next operation of a job.

ghost use Rattle.std.specs.Prelude.{◌≡◌, ℕ, true, List, Some, [], ◌∷◌, slice_get};
ghost use Rattle.scj_model.specs.declared.plans.ReadingRow.{ReadingRow as Reading};
ghost use Rattle.scj_model.specs.declared.handlers.HandlerRow.{HandlerRow as Row};
ghost use Rattle.scj_model.specs.Code.{Code};
ghost use Rattle.scj_model.specs.Registry.{handler_row};
ghost use Rattle.scj_model.specs.Run.{frame_op, start_op};
ghost use Rattle.scj_model.specs.State.{MemoryArea, Activity, Frame, Waits, Job, Release, ReleaseAt, State, activity_of, area_at, is_open_area};
ghost use Rattle.scj_model.specs.Steps.{Step};
ghost use Rattle.scope_flow.specs.Facts.{Facts};
ghost use Rattle.frame_sound.specs.AllJobs.{AllStand, LetsAllStand};
ghost use Rattle.frame_sound.specs.Fine.{MemoryFine};
ghost use Rattle.frame_sound.specs.Others.{KeepsOthers, OthersStand};
ghost use Rattle.frame_sound.specs.OwnJob.{JobStands, KeepsItsJob};
ghost use Rattle.frame_sound.specs.Starts.{HandlerFine, Starts};

/// The next operation of a job that stands has a result. The job goes on, on the frame that it began with; or it has
/// left its last frame, with what the frame's body gives; or a fault has ended it. The memory is as the rules say in
/// each case, and only handlers are registered. All other jobs have the frames, areas and priority that they had; other
/// areas, the class and place of objects, other releases and the mission are as before, but that waiting releases may
/// be dropped.
pub fn operations_keep_their_job()
    ensures own { (code : Code) → Facts code → (rows : List Reading) (s : State) (job : Job) (base : List ℕ)
        (stands : JobStands code s job base) (f : Frame) (below : List Frame) → stands.activity.frames ≡ f ∷ below →
        KeepsItsJob code s job stands.activity base f below (frame_op code rows s job stands.activity) }
    ensures others { (code : Code) → Facts code → (rows : List Reading) (s : State) (job : Job) (base : List ℕ)
        (stands : JobStands code s job base) (f : Frame) (below : List Frame) (step : Step) →
        stands.activity.frames ≡ f ∷ below → frame_op code rows s job stands.activity ≡ Some step →
        KeepsOthers s job stands.activity.frames step.state × OthersStand s job step.state }
{}

/// A release whose handler is as the rules say (`HandlerFine`) has a first operation: it starts, with one frame in a
/// private memory inside the innermost one of the sequencer's, or a fault ends it. All other jobs stand as they stood.
pub fn releases_start()
    ensures own { (code : Code) → Facts code → (s : State) (index : ℕ) (r : Release) (row : Row) →
        slice_get s.releases index ≡ Some r → handler_row s.registry r.handler ≡ Some row → MemoryFine code s →
        (handler : HandlerFine code s row) → Starts code s index row handler (start_op code s index r) }
    ensures others { (code : Code) (s : State) (index : ℕ) (r : Release) (step : Step) →
        start_op code s index r ≡ Some step →
        KeepsOthers s (ReleaseAt index) [] step.state × OthersStand s (ReleaseAt index) step.state }
{}

/// Where all jobs stand, the next operation of each job that is under way has a result in which all jobs stand, and so
/// has the first one of a waiting release of a handler that is as the rules say, while the sequencer has no frame. And
/// what an open area lies in is open.
pub fn all_jobs_stand()
    ensures operations { (code : Code) → Facts code → (rows : List Reading) (s : State) (base : List ℕ) (job : Job)
        (activity : Activity) (f : Frame) (below : List Frame) → AllStand code s base →
        activity_of s job ≡ Some activity → activity.frames ≡ f ∷ below →
        LetsAllStand code base (frame_op code rows s job activity) }
    ensures starts { (code : Code) → Facts code → (s : State) (base : List ℕ) (index : ℕ) (r : Release) (row : Row) →
        AllStand code s base → s.activity.frames ≡ [] → slice_get s.releases index ≡ Some r → r.status ≡ Waits →
        handler_row s.registry r.handler ≡ Some row → HandlerFine code s row →
        LetsAllStand code base (start_op code s index r) }
    ensures nested { (code : Code) (s : State) (base : List ℕ) (a b : ℕ) (x : MemoryArea) → AllStand code s base →
        area_at s a ≡ Some x → x.is_open ≡ true → x.parent ≡ Some b → is_open_area s b ≡ true }
{}
