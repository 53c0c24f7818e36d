//! What is accepted is safe, of texts and of a call. And the claims of safety aren't empty: a text that the checker
//! accepts has a program that is safe, and a run of a program with handlers and a ceiling comes to a state that is framed
//! and placed.
#![tactic(auto)]

ghost use Rattle.std.specs.Prelude.{ℕ, List, [], ◌∷◌};
ghost use Rattle.scj_base.specs.declared.statuses.Status.{Status};
ghost use Rattle.scj_io.specs.Loads.{ShelfRun};
ghost use Rattle.scj_io.specs.Puts.{SinkRun};
ghost use Rattle.scj_tree.specs.Forest.{Forest};
ghost use Rattle.scj_rules.specs.Syntax.{Reads};
ghost use Rattle.scj_rules.specs.Verdicts.{IsReportOf};
ghost use Rattle.scj_check.specs.Samples.{arithmetic_text};
ghost use Rattle.scj_model.specs.Code.{code_of};
ghost use Rattle.scj_model.specs.Plan.{Plan};
ghost use Rattle.scj_model.specs.Safety.{IsSafe};
ghost use Rattle.command_line.specs.Job.{job_of};
ghost use Rattle.scj_cli.specs.Endings.{Ends, call_of};
ghost use Rattle.scj_cli.specs.Outcomes.{ComesTo, Ran};
ghost use Rattle.safe_texts.specs.Instances.{ComesIntoMonitor};
ghost use Rattle.safe_texts.specs.SafeCalls.{Accepts, HasSafeProgram};
ghost use Rattle.safe_texts.specs.SafePrograms.{AreWithinLimits, IsSafeProgram, IsSmall};
ghost use Rattle.safe_texts.specs.SharedGate.{base_text, gate_text};

/// Texts whose report is empty, as are all that the checker accepts and all that it runs, are read as a program that
/// breaks no rule, and is safe. A call takes up to 16 texts of 1,048,576 bytes; of others the same holds where their
/// program has at most 16 files and fewer than 2^32 nodes.
pub fn what_is_accepted_is_safe()
    ensures within_limits { (texts : List (List ℕ)) → AreWithinLimits texts → IsReportOf texts [] →
        IsSafeProgram texts }
    ensures small { (texts : List (List ℕ)) (program : Forest) → IsReportOf texts [] →
        Reads texts program → IsSmall program → IsSafe (code_of program) }
{}

/// What `scj` accepts is safe. However a call ends, by the clause `ends` of `scj`: where its status says that no rule was
/// found broken, what stands under the names of its files are sources that are a safe program. And each program that a
/// call runs is safe, also where the run is cut short.
pub fn what_a_call_accepts_is_safe()
    ensures accepted { (words : List (List ℕ)) (shelf : ShelfRun) (out err : SinkRun)
        (status : Status) →
        Ends (call_of (job_of words) shelf out err) status → Accepts (job_of words) status →
        HasSafeProgram (call_of (job_of words) shelf out err) }
    ensures runs { (texts : List (List ℕ)) (plan_text : List ℕ) (program : Forest) (plan : Plan) →
        AreWithinLimits texts → ComesTo texts plan_text (Ran program plan) →
        IsSafe (code_of program) }
{}

/// A text has an empty report, and its program is safe. It has no mission: `getSequencer` gives null.
pub fn a_text_is_safe()
    ensures accepted { IsReportOf (arithmetic_text ∷ []) [] }
    ensures safe { (program : Forest) × Reads (arithmetic_text ∷ []) program × IsSafe (code_of program) }
{}

/// Two texts are a program that breaks no rule, with two handlers that share an object with a ceiling. A run of it comes
/// to a state in which a release holds the object, in its private memory, and the other one waits. The release is framed
/// there, and all is placed.
pub fn a_run_comes_into_a_monitor()
    ensures { ComesIntoMonitor (base_text ∷ gate_text ∷ []) 9 }
{}
