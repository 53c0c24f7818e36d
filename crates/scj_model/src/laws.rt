//! What follows from the definitions of a run alone. Each law is the contract of a function that does nothing.

ghost use Rattle.std.specs.Prelude.{◌≡◌, ◌↔◌, ◌<◌, ◌+◌, ◌*◌, ◌++◌, [], ◌∷◌, true, false, ℕ, List, IsTrue, length, codes};
ghost use Rattle.scj_tree.specs.Forest.{Forest as Program};
ghost use Rattle.scj_tree.specs.Recursion.{below};
ghost use Rattle.scj_rules.specs.Classes.{hidden_fields};
ghost use Rattle.scj_rules.specs.Contexts.{Declarations};
ghost use Rattle.scj_rules.specs.Layout.{slots};
ghost use Rattle.scj_rules.specs.Phases.{IsAccepted};
ghost use Rattle.scj_model.specs.declared.events.Event.{Event as Line};
ghost use Rattle.scj_model.specs.declared.handlers.HandlerKind.TheVariants.{Periodic, OneShot, Aperiodic};
ghost use Rattle.scj_model.specs.declared.handlers.HandlerRow.{HandlerRow as Row};
ghost use Rattle.scj_model.specs.declared.plans.ReadingRow.{ReadingRow as Reading};
ghost use Rattle.scj_model.specs.Code.{Code, code_of};
ghost use Rattle.scj_model.specs.Memory.{hidden_values, new_slots};
ghost use Rattle.scj_model.specs.Ops.{ops_of, next_ops};
ghost use Rattle.scj_model.specs.Order.{IsOrderly};
ghost use Rattle.scj_model.specs.Plan.{Plan};
ghost use Rattle.scj_model.specs.State.{State, Job, TheSequencer, ReleaseAt, TurnOf};
ghost use Rattle.scj_model.specs.Steps.{Step};
ghost use Rattle.scj_model.specs.Arrivals.{is_due};
ghost use Rattle.scj_model.specs.Choice.{Policy, by_priority, by_list};
ghost use Rattle.scj_model.specs.Reached.{Reached, Moment, Between, Arrived, Operated};
ghost use Rattle.scj_model.specs.Safety.{IsSafeInAnyOrder, NoDangling, job_may_act};
ghost use Rattle.scj_model.specs.LastLine.{EndsInLastLine, HasNoLastLine};
ghost use Rattle.scj_model.specs.Run.{RefOp, PhaseLeadsTo, UnitLeadsTo, ref_op, run, trace, with_turn};
ghost use Rattle.scj_model.specs.TraceText.{text};

/// An operation of a job, what follows it, and a unit have one result at most.
pub fn one_result()
    ensures operation { (code : Code) (rows : List Reading) (s : State) (job : Job) (a b : State) (es fs : List Line) → RefOp code rows s job a es → RefOp code rows s job b fs → (a ≡ b) × (es ≡ fs) }
    ensures phase { (code : Code) (s a b : State) (es fs : List Line) → PhaseLeadsTo code s a es → PhaseLeadsTo code s b fs → (a ≡ b) × (es ≡ fs) }
    ensures unit { (code : Code) (plan : Plan) (policy : Policy) (s a b : State) (es fs : List Line) → UnitLeadsTo code plan policy s a es → UnitLeadsTo code plan policy s b fs → (a ≡ b) × (es ≡ fs) }
{}

/// The operations of a node are told by those of its parts, which have smaller numbers.
pub fn operations_come_from_below()
    ensures { (code : Code) (id : ℕ) → ops_of code id ≡ next_ops code id (below [] id (ops_of code)) }
{}

/// What a run tells in fewer units is the beginning of what it tells in more.
pub fn trace_grows()
    ensures { (code : Code) (plan : Plan) (policy : Policy) (n k : ℕ) → (more : List Line) × ((run code plan policy (n + k)).events ≡ (run code plan policy n).events ++ more) }
{}

/// The trace of a run that isn't stuck ends in a line that says that the run is done, halted or stopped, and no line
/// before it says so. The trace of a stuck run has no such line.
pub fn last_line()
    ensures ends { (code : Code) (plan : Plan) (n : ℕ) → (run code plan by_priority n).is_stuck ≡ false → EndsInLastLine (trace code plan n) }
    ensures none { (code : Code) (plan : Plan) (n : ℕ) → (run code plan by_priority n).is_stuck ≡ true → HasNoLastLine (trace code plan n) }
{}

/// The states of a run between its units are reached states.
pub fn runs_are_reached()
    ensures { (code : Code) (plan : Plan) (policy : Policy) (n : ℕ) → Reached code plan policy Between (run code plan policy n).state }
{}

/// Between two units no release is started outside execution, and the sequencer has no frame in it, whoever is chosen.
pub fn runs_are_orderly()
    ensures { (code : Code) (plan : Plan) (policy : Policy) (n : ℕ) → IsOrderly (run code plan policy n).state }
{}

/// A run by the machine's own choice is one by some list of choices, and each state that it comes to is reached by one.
pub fn priorities_follow_a_list()
    ensures runs { (code : Code) (plan : Plan) (n : ℕ) → (choices : List ℕ) × (run code plan by_priority n ≡ run code plan (by_list choices) n) }
    ensures states { (code : Code) (plan : Plan) (moment : Moment) (s : State) → Reached code plan by_priority moment s → (choices : List ℕ) × Reached code plan (by_list choices) moment s }
{}

/// Whichever job may act after the arrivals of a unit: what its operation leads to is reached by some list. For a release
/// that is the state in which it was chosen last.
pub fn each_job_can_be_named()
    ensures release { (code : Code) (plan : Plan) (choices : List ℕ) (s : State) (index : ℕ) (step : Step) → Reached code plan (by_list choices) Arrived s → IsTrue (job_may_act s (ReleaseAt index)) → ref_op code plan.readings s (ReleaseAt index) ≡ Some step → (others : List ℕ) × Reached code plan (by_list others) Operated (with_turn step.state (TurnOf index)) }
    ensures sequencer { (code : Code) (plan : Plan) (choices : List ℕ) (s : State) (step : Step) → Reached code plan (by_list choices) Arrived s → IsTrue (job_may_act s TheSequencer) → ref_op code plan.readings s TheSequencer ≡ Some step → Reached code plan (by_list choices) Operated step.state }
{}

/// What is safe in any order is safe in the machine's own: its runs are never stuck, and no reference that can be used
/// leads into a closed area in a state that they come to.
pub fn safety_reaches_the_trace()
    ensures goes_on { (code : Code) (plan : Plan) (n : ℕ) → IsSafeInAnyOrder code → (run code plan by_priority n).is_stuck ≡ false }
    ensures none_dangles { (code : Code) (plan : Plan) (moment : Moment) (s : State) → IsSafeInAnyOrder code → Reached code plan by_priority moment s → NoDangling s }
{}

/// A new object has a value for each slot of its class, and the first ones for the hidden fields of handlers.
pub fn new_objects_fill_their_slots()
    ensures hidden { (p : Declarations) (class : ℕ) → length (hidden_values p class) ≡ hidden_fields p.classes class }
    ensures all { (p : Declarations) (class : ℕ) → length (new_slots p class) ≡ slots p class }
{}

/// A periodic handler is due in the units that are the origin, its start and some periods, a one-shot handler in the
/// origin and its start alone, and an aperiodic one in none.
pub fn due_after_whole_periods()
    ensures periodic { (origin unit : ℕ) (row : Row) → row.kind ≡ Periodic → 0 < row.period → (is_due origin unit row ≡ true) ↔ ((i : ℕ) × (unit ≡ origin + row.start + i * row.period)) }
    ensures one_shot { (origin unit : ℕ) (row : Row) → row.kind ≡ OneShot → (is_due origin unit row ≡ true) ↔ (unit ≡ origin + row.start) }
    ensures aperiodic { (origin unit : ℕ) (row : Row) → row.kind ≡ Aperiodic → is_due origin unit row ≡ false }
{}

/// A program that breaks no rule runs: two handlers of one class share the store to its last byte.
pub fn an_accepted_program_runs()
    ensures { (forest : Program) × IsAccepted forest × (text forest.nodes (codes "B.java" ∷ codes "I.java" ∷ []) (trace (code_of forest) (record { units = 200; store = 1000; fires = []; readings = [] }) 200) ≡ codes "30 mission Main\n47 register 1 W 5\n63 register 2 W 9\n64 exec\n65 arrive 1 1\n65 run 1 1\n80 arrive 2 1\n80 run 2 1\n102 print q 9\n104 end 2 1\n105 run 1 1\n112 print q 5\n114 end 1 1\n115 idle\n200 stopped\n") }
{}
