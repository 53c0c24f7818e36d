//! What holds of the traces of runs. Each law is the contract of a function that does nothing.

ghost use Rattle.std.specs.Prelude.{◌≡◌, ℕ, All, List};
ghost use Rattle.scj_tree.specs.Forest.{Forest};
ghost use Rattle.accepted_laws.specs.Programs.{IsAcceptedProgram};
ghost use Rattle.scj_model.specs.Choice.{by_priority};
ghost use Rattle.scj_model.specs.Code.{code_of};
ghost use Rattle.scj_model.specs.Plan.{Plan};
ghost use Rattle.scj_model.specs.Reached.{Moment, Reached};
ghost use Rattle.scj_model.specs.Run.{trace};
ghost use Rattle.scj_model.specs.State.{State};
ghost use Rattle.scj_model.specs.TraceText.{text};
ghost use Rattle.run_plan.specs.Limits.{KeepsLimits};
ghost use Rattle.int_values.specs.Ints.{PrintsInt, StateFits};
ghost use Rattle.audited_runs.specs.Files.{IsReadFromFiles};
ghost use Rattle.trace_audit.specs.Audits.{audit_of};
ghost use Rattle.trace_audit.specs.Printed.{audit_reported};
ghost use Rattle.trace_audit.specs.Replay.{nothing_reported};
ghost use Rattle.trace_audit.specs.declared.answers.Audit.TheVariants.{Yes};

/// In each state that a run of an accepted program comes to, by a plan that keeps its limits, each number in a local, an
/// operand, a field, an element and a static field has 32 bits; only the hidden fields of a handler may hold more. So
/// each number that is printed has 32 bits.
pub fn values_have_32_bits()
    ensures states { (forest : Forest) → IsAcceptedProgram forest → (plan : Plan) →
        KeepsLimits plan → (moment : Moment) (s : State) →
        Reached (code_of forest) plan by_priority moment s → StateFits (code_of forest).program s }
    ensures printed { (forest : Forest) → IsAcceptedProgram forest → (plan : Plan) →
        KeepsLimits plan → (n : ℕ) → All PrintsInt (trace (code_of forest) plan n) }
{}

/// The events of each run of an accepted program, whatever the plan, audited one by one with this plan, are answered with
/// yes: each of them passes, and the last one ends the trace. So is the text of the trace, by a plan that keeps its
/// limits, where the program was read from files with proper names.
pub fn traces_are_audited()
    ensures events { (forest : Forest) → IsAcceptedProgram forest → (plan : Plan) →
        audit_reported plan nothing_reported 1 (trace (code_of forest) plan plan.units) ≡ Yes }
    ensures texts { (texts : List (List ℕ)) (forest : Forest) (files : List (List ℕ)) →
        IsReadFromFiles texts forest files → IsAcceptedProgram forest →
        (plan : Plan) → KeepsLimits plan →
        audit_of plan (text forest.nodes files (trace (code_of forest) plan plan.units)) ≡ Yes }
{}
