//! Where no reference dangles, the effect of an operation is the same whether all objects are seen or those of open areas
//! alone. The law is the contract of a function that does nothing.
#![tactic(auto)]

ghost use Rattle.std.specs.Prelude.{◌≡◌, ◌∷◌, ℕ, List, Option, Some};
ghost use Rattle.scj_model.specs.declared.operations.Op.{Op as Operation};
ghost use Rattle.scj_model.specs.declared.plans.ReadingRow.{ReadingRow as Reading};
ghost use Rattle.scj_model.specs.Code.{Code};
ghost use Rattle.scj_model.specs.Operations.{effect_of};
ghost use Rattle.scj_model.specs.Run.{environment};
ghost use Rattle.scj_model.specs.Safety.{NoDangling};
ghost use Rattle.scj_model.specs.State.{Activity, Frame, Job, Object, State, activity_of};
ghost use Rattle.live_reads.specs.Live.{FindsOpenObjects, looked_up};

/// In a state in which no reference dangles, the operation of a job has one effect however objects are looked up, if
/// those of open areas are found: `f` is the job's highest frame, and `g` the same frame with its operation taken off.
pub fn operation_reads_live()
    ensures { (code : Code) (rows : List Reading) (s : State) (look : ℕ → Option Object) (job : Job)
        (activity : Activity) (f g : Frame) (below : List Frame) (op : Operation) → FindsOpenObjects s look →
        NoDangling s → activity_of s job ≡ Some activity → activity.frames ≡ f ∷ below → g.operands ≡ f.operands →
        g.this ≡ f.this →
        effect_of code (environment rows s) g op ≡ effect_of code (looked_up (environment rows s) look) g op }
{}
