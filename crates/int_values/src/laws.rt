//! What holds of the numbers of runs. Each law is the contract of a function that does nothing.

ghost use Rattle.std.specs.Prelude.{◌≡◌, ◌≤◌, ℕ, All, List, Some};
ghost use Rattle.scj_base.specs.declared.values.Value.{Value};
ghost use Rattle.scj_model.specs.declared.plans.ReadingRow.{ReadingRow};
ghost use Rattle.scj_model.specs.Arithmetic.{binary_value, unary_value};
ghost use Rattle.scj_model.specs.Arrivals.{arrivals};
ghost use Rattle.scj_model.specs.Choice.{Policy};
ghost use Rattle.scj_model.specs.Code.{Code};
ghost use Rattle.scj_model.specs.Plan.{Plan};
ghost use Rattle.scj_model.specs.Run.{acts, empty_state};
ghost use Rattle.scj_model.specs.Sequencer.{phase_after};
ghost use Rattle.scj_model.specs.State.{Activity, Job, State, activity_of};
ghost use Rattle.scj_model.specs.Steps.{Step};
ghost use Rattle.run_plan.specs.Limits.{IsReading, largest_store};
ghost use Rattle.scope_flow.specs.Facts.{Facts};
ghost use Rattle.frame_sound.specs.Fine.{JobFine, MemoryFine};
ghost use Rattle.frame_sound.specs.Places.{world_of};
ghost use Rattle.int_values.specs.Ints.{FitsInt, HasInts, StateFits, StepFits};

/// An operator gives a number of 32 bits: of one operand always, and of two where the left one has 32 bits.
pub fn operators_give_ints()
    ensures binary { (operator : ℕ) (left right value : Value) → FitsInt left →
        binary_value operator left right ≡ Some value → FitsInt value }
    ensures unary { (operator : ℕ) (operand value : Value) →
        unary_value operator operand ≡ Some value → FitsInt value }
{}

/// The numbers of the first state of a run have 32 bits, where those of the literals have. Arrivals keep that, and what
/// follows an operation in the sequencer. So does the operation of a unit, whoever acts, where ports read 32 bits and
/// memory and the frames of all jobs are as the rules say. Each number that these print has 32 bits, too.
pub fn units_keep_ints()
    ensures first { (code : Code) → HasInts code.program.nodes → (plan : Plan) →
        plan.store ≤ largest_store → StateFits code.program (empty_state code plan) }
    ensures arrivals { (code : Code) (plan : Plan) (s : State) → StateFits code.program s →
        StepFits code.program (arrivals code plan s) }
    ensures operations { (code : Code) → HasInts code.program.nodes → Facts code →
        (rows : List ReadingRow) → All IsReading rows → (s : State) (base : List ℕ) →
        MemoryFine code s →
        ((job : Job) (a : Activity) → activity_of s job ≡ Some a →
        JobFine code (world_of s) base a) →
        StateFits code.program s → (policy : Policy) (step : Step) →
        acts code rows policy s ≡ Some step → StepFits code.program step }
    ensures phases { (code : Code) (s : State) → StateFits code.program s → (step : Step) →
        phase_after code s ≡ Some step → StepFits code.program step }
{}
