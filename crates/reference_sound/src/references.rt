//! References that can be used.

ghost use Rattle.std.specs.Prelude.{ℕ, Option, Some, None, List, [], ◌∷◌, ◌≡◌, true};
ghost use Rattle.scj_rules.specs.Contexts.{Declarations};
ghost use Rattle.scj_rules.specs.Words.{is_among};
ghost use Rattle.scj_model.specs.declared.operations.Op.{Op};
ghost use Rattle.scj_model.specs.declared.operations.SeqOp.{SeqOp};
ghost use Rattle.scj_model.specs.declared.plans.ReadingRow.{ReadingRow};
ghost use Rattle.scj_model.specs.Arrivals.{arrivals};
ghost use Rattle.scj_model.specs.Code.{Code};
ghost use Rattle.scj_model.specs.Operations.{Environment, effect_of};
ghost use Rattle.scj_model.specs.Plan.{Plan};
ghost use Rattle.scj_model.specs.Run.{frame_op, start_op, empty_state};
ghost use Rattle.scj_model.specs.Safety.{NoDangling};
ghost use Rattle.scj_model.specs.Sequencer.{sequencer_op, phase_after};
ghost use Rattle.scj_model.specs.State.{MemoryArea, Frame, Activity, Release, Job, State, activity_of};
ghost use Rattle.scj_model.specs.Steps.{Step};
ghost use Rattle.scope_flow.specs.Facts.{Facts};
ghost use Rattle.scope_flow.specs.Signatures.{Signature};
ghost use Rattle.frame_sound.specs.Fine.{ListFine, HeapFine, StaticsFine, Ready, IsOnList, MemoryFine, JobFine, list_of};
ghost use Rattle.frame_sound.specs.Places.{world_of};
ghost use Rattle.reference_sound.specs.EffectsHold.{Holding};
ghost use Rattle.reference_sound.specs.References.{LiesInImmortal, LocalsHold, ReferencesHold};
ghost use Rattle.reference_sound.specs.Roots.{LiesOpen, ImmortalIsOpen, InnermostIsThere, IsRooted};

/// An operation keeps all references where they may be, whoever acts, where the frames stand as the rules say and the
/// innermost memory of the sequencer is there: what slots and static fields refer to outlives them, and what the locals
/// of a frame refer to, also of blocks that are over, lies in areas of the frame's list. The next operation of a body
/// that is under way does so, the first one of a release, and those of the sequencer.
pub fn operations_keep_references()
    ensures operations { (code : Code) → Facts code →
        (rows : List ReadingRow) (s : State) (job : Job) (activity : Activity) (base : List ℕ) →
        activity_of s job ≡ Some activity → MemoryFine code s → JobFine code (world_of s) base activity →
        ReferencesHold s base → (step : Step) → frame_op code rows s job activity ≡ Some step →
        ReferencesHold step.state base }
    ensures starts { (code : Code) (s : State) (base : List ℕ) → ReferencesHold s base → InnermostIsThere s →
        (index : ℕ) (release : Release) (step : Step) → start_op code s index release ≡ Some step →
        ReferencesHold step.state base }
    ensures sequencer { (code : Code) (s : State) (base : List ℕ) → ReferencesHold s base → InnermostIsThere s →
        (op : SeqOp) (step : Step) → sequencer_op code s op ≡ Some step → ReferencesHold step.state base }
{}

/// References are where they may be in the first state; arrivals keep them there, what follows an operation in the
/// sequencer does, and what changes neither memory nor the frames of a job.
pub fn runs_keep_references()
    ensures first { (code : Code) (plan : Plan) (base : List ℕ) → ReferencesHold (empty_state code plan) base }
    ensures arrived { (code : Code) (plan : Plan) (s : State) (base : List ℕ) → ReferencesHold s base →
        ReferencesHold (arrivals code plan s).state base }
    ensures phases { (code : Code) (s : State) (base : List ℕ) → ReferencesHold s base → (step : Step) →
        phase_after code s ≡ Some step → ReferencesHold step.state base }
    ensures resting { (s after : State) (base : List ℕ) → ReferencesHold s base → after.areas ≡ s.areas →
        after.objects ≡ s.objects → after.statics ≡ s.statics → after.releases ≡ s.releases →
        after.activity ≡ s.activity → ReferencesHold after base }
{}

/// What the sequencer has without frames may grow; where no job has a frame it may be any; and of two that give each
/// job the same list one may stand for the other.
pub fn bases_change()
    ensures grows { (s : State) (base more : List ℕ) → ((a : ℕ) → is_among a base ≡ true → is_among a more ≡ true) →
        ReferencesHold s base → ReferencesHold s more }
    ensures any { (s : State) (base other : List ℕ) →
        ((job : Job) (activity : Activity) → activity_of s job ≡ Some activity → activity.frames ≡ []) →
        ReferencesHold s base → ReferencesHold s other }
    ensures one { (s : State) (base other : List ℕ) →
        ((job : Job) (activity : Activity) → activity_of s job ≡ Some activity →
        activity.areas ≡ list_of base activity.frames) →
        ((job : Job) (activity : Activity) → activity_of s job ≡ Some activity →
        activity.areas ≡ list_of other activity.frames) →
        ReferencesHold s base → ReferencesHold s other }
{}

/// The next operation of a frame that is ready asks only what keeps references where they may be: its locals refer to
/// what they or its operands referred to, new objects refer to nothing, and what it stores may be stored.
pub fn effects_hold_references()
    ensures { (code : Code) → Facts code → (areas : ℕ → Option MemoryArea) (world : Environment) (list : List ℕ)
        (class : ℕ) (sig : Signature) (f : Frame) (op : Op) (rest : List Op) → ListFine areas list →
        HeapFine code.program (record { areas = areas; objects = world.object_at }) →
        StaticsFine code.program (record { areas = areas; objects = world.object_at }) world.statics →
        Ready code (record { areas = areas; objects = world.object_at }) list class sig
        (record f { rest = op ∷ rest }) None → LocalsHold (record { areas = areas; objects = world.object_at }) list f →
        Holding (record { areas = areas; objects = world.object_at })
        (IsOnList (record { areas = areas; objects = world.object_at }) list)
        (effect_of code world (record f { rest = rest }) op) }
{}

/// What lies on a list that is as the rules say lies open, and so does what lies in the first area, if that is open.
pub fn fine_lists_are_open()
    ensures on_list { (s : State) (list : List ℕ) (r : ℕ) → ListFine (world_of s).areas list →
        IsOnList (world_of s) list r → LiesOpen s r }
    ensures in_first { (p : Declarations) (s : State) (r : ℕ) → HeapFine p (world_of s) → ImmortalIsOpen s →
        LiesInImmortal (world_of s) r → LiesOpen s r }
{}

/// In a state whose references are rooted (`IsRooted`) no reference that can be used leads into a closed area, and those
/// of a job's frames lead into areas of the job's own list.
pub fn no_reference_dangles()
    ensures { (code : Code) (s : State) (base : List ℕ) → IsRooted code s base → NoDangling s }
{}
