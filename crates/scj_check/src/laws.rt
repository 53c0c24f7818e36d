//! What is true of the texts of every call. These functions do nothing: each stands for a law.

ghost use Rattle.std.specs.Prelude.{◌≡◌, [], ◌∷◌, ℕ, List};
ghost use Rattle.scj_base.specs.declared.findings.Found.{Found as Finding};
ghost use Rattle.scj_tree.specs.Forest.{Forest};
ghost use Rattle.scj_rules.specs.Syntax.{Reads, BreaksSyntax};
ghost use Rattle.scj_rules.specs.Phases.{IsAccepted};
ghost use Rattle.scj_rules.specs.Verdicts.{IsReportOf};
ghost use Rattle.scj_check.specs.Samples.{arithmetic_text};

/// Texts have one program at most.
pub fn one_program_at_most()
    ensures { (texts : List (List ℕ)) (one other : Forest) → Reads texts one → Reads texts other → one ≡ other }
{}

/// Of texts one break at most is told.
pub fn one_break_at_most()
    ensures { (texts : List (List ℕ)) (one other : Finding) → BreaksSyntax texts one → BreaksSyntax texts other →
        one ≡ other }
{}

/// Texts that have a program have no break.
pub fn no_break_of_a_program()
    ensures { (texts : List (List ℕ)) (program : Forest) (found : Finding) → Reads texts program →
        BreaksSyntax texts found → ⊥ }
{}

/// Texts have one report at most.
#[tactic(auto, using(crate::proofs::VerdictLaws::one_report_of_texts))]
pub fn one_report_at_most()
    ensures { (texts : List (List ℕ)) (one other : List Finding) → IsReportOf texts one → IsReportOf texts other →
        one ≡ other }
{}

/// Some texts have an empty report: they are read as a program that breaks no rule, so that there is a `Checked`.
#[tactic(auto, using(crate::proofs::SampleLaws::sample_report, crate::proofs::SampleLaws::sample_reads, scj_rules::proofs::RowsOfClasses::safelet_accepted))]
pub fn a_text_is_accepted()
    ensures report { IsReportOf (arithmetic_text ∷ []) [] }
    ensures program { (program : Forest) × Reads (arithmetic_text ∷ []) program × IsAccepted program }
{}
