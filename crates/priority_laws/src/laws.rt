//! What holds in each run in which the most urgent release acts. Each law is the contract of a function that does
//! nothing.

ghost use Rattle.std.specs.Prelude.{◌≡◌, ◌≤◌, ◌<◌, ℕ, true, length, Some, Contains};
ghost use Rattle.scj_tree.specs.Forest.{Forest as Program};
ghost use Rattle.scj_rules.specs.Contexts.{declarations_of};
ghost use Rattle.scj_rules.specs.ScopeRules.{is_handler};
ghost use Rattle.accepted_laws.specs.Programs.{IsAcceptedProgram};
ghost use Rattle.scj_model.specs.Code.{Code, code_of};
ghost use Rattle.scj_model.specs.Plan.{Plan};
ghost use Rattle.scj_model.specs.State.{State};
ghost use Rattle.scj_model.specs.Steps.{Step};
ghost use Rattle.scj_model.specs.Sequencer.{phase_after};
ghost use Rattle.scj_model.specs.Choice.{by_priority};
ghost use Rattle.scj_model.specs.Run.{acts};
ghost use Rattle.scj_model.specs.Reached.{Moment, Arrived, Operated, Reached};
ghost use Rattle.scj_model.specs.Safety.{held_by, Exclusive, Lifo, IsSafeByPriority, most_started, started_count};
ghost use Rattle.priority_laws.specs.Handlers.{IsHandlerClass, PrioritiesAreRight, ActiveAreAtMostHighest};
ghost use Rattle.priority_laws.specs.InOrder.{IsInOrder, MonitorsAreGuarded};
ghost use Rattle.priority_laws.specs.Rising.{HasCeilingBetween};
ghost use Rattle.priority_laws.specs.Started.{StartedRelease, started_at, own_priority};
ghost use Rattle.priority_laws.specs.Premises.{EntersItsMonitors, SparesPriorities, CallsFrameworkByTypes};

/// Whatever the program is: of two started releases one was started above the active priority of the other, the active
/// priority of each is raised by its calls, and each open area is the sequencer's or was opened by a started release,
/// the greater ones later.
pub fn releases_are_in_order()
    ensures { (code : Code) (plan : Plan) (moment : Moment) (s : State) → Reached code plan by_priority moment s →
        IsInOrder s }
{}

/// Whatever the program is: of what an operation closes, or what follows it, nothing that was opened later stays open.
pub fn areas_are_closed_in_order()
    ensures operation { (code : Code) (plan : Plan) (s : State) (step : Step) →
        Reached code plan by_priority Arrived s → acts code plan.readings by_priority s ≡ Some step →
        Lifo s step.state }
    ensures phase { (code : Code) (plan : Plan) (s : State) (step : Step) → Reached code plan by_priority Operated s →
        phase_after code s ≡ Some step → Lifo s step.state }
{}

/// Where each frame of a synchronized method has entered its monitor, the ceilings of the objects that a release holds
/// lie between its own priority and its active one, and no two jobs hold one object.
pub fn monitors_exclude_one_another()
    ensures guarded { (code : Code) → EntersItsMonitors code → (plan : Plan) (moment : Moment) (s : State) →
        Reached code plan by_priority moment s → MonitorsAreGuarded code s }
    ensures between { (code : Code) → EntersItsMonitors code → (plan : Plan) (moment : Moment) (s : State) →
        Reached code plan by_priority moment s → (index : ℕ) (w : StartedRelease) →
        started_at s.releases index ≡ Some w → (r : ℕ) → Contains (held_by code w.activity) r →
        HasCeilingBetween s.objects r (own_priority s w) w.activity.priority }
    ensures exclusive { (code : Code) → EntersItsMonitors code → (plan : Plan) (moment : Moment) (s : State) →
        Reached code plan by_priority moment s → Exclusive code s }
{}

/// Where the program writes over no handler's priority, the priorities of handler objects, of the registry and of
/// ceilings are from 1 to 28, no active priority is higher, and at most 28 releases are started.
pub fn few_releases_are_started()
    ensures right { (code : Code) → SparesPriorities code → (plan : Plan) (moment : Moment) (s : State) →
        Reached code plan by_priority moment s → PrioritiesAreRight code s }
    ensures bounded { (code : Code) → SparesPriorities code → (plan : Plan) (moment : Moment) (s : State) →
        Reached code plan by_priority moment s → ActiveAreAtMostHighest s }
    ensures few { (code : Code) → SparesPriorities code → (plan : Plan) (moment : Moment) (s : State) →
        Reached code plan by_priority moment s → started_count s ≤ most_started }
{}

/// Both conditions together make the machine's own choice safe.
pub fn priorities_keep_programs_safe()
    ensures { (code : Code) → EntersItsMonitors code → SparesPriorities code → IsSafeByPriority code }
{}

/// Where what is registered is a handler, what has elements assigned an array, and what runs in an opened area a
/// Runnable, the releases of an accepted program enter each monitor that their frames stand for, and the machine's own
/// choice is safe. A class that is a handler by the rules is a handler's class, and no array's.
pub fn accepted_programs_are_safe_by_priority()
    ensures enters { (forest : Program) → IsAcceptedProgram forest → CallsFrameworkByTypes (code_of forest) →
        EntersItsMonitors (code_of forest) }
    ensures safe { (forest : Program) → IsAcceptedProgram forest → CallsFrameworkByTypes (code_of forest) →
        IsSafeByPriority (code_of forest) }
    ensures handlers { (forest : Program) (class : ℕ) → class < length (declarations_of forest).classes →
        is_handler (declarations_of forest) class ≡ true → IsHandlerClass (declarations_of forest) class }
{}
