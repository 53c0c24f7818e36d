//! What holds in the runs that stay within declared rows. Each law is the contract of a function that does nothing.

ghost use Rattle.std.specs.Prelude.{◌≡◌, ℕ, List, true};
ghost use Rattle.scj_tree.specs.Forest.{Forest};
ghost use Rattle.accepted_laws.specs.Programs.{IsAcceptedProgram};
ghost use Rattle.scj_model.specs.Code.{code_of};
ghost use Rattle.scj_model.specs.Plan.{Plan};
ghost use Rattle.response_bounds.specs.declared.rows.Declared.{Declared as Row};
ghost use Rattle.response_bounds.specs.Rows.{AreDeclared};
ghost use Rattle.response_times.specs.Runs.{RespondsInTime, RespondsInTimeIf, Within};

/// In a run that stays within rows each release of a handler with a bound has ended or was dropped in time: in every
/// run of an accepted program, and in every other one that isn't stuck and in which who may act is the mission's.
pub fn responses_are_bounded()
    ensures accepted { (rows : List Row) → AreDeclared rows → (forest : Forest) → IsAcceptedProgram forest →
        (plan : Plan) (n : ℕ) → Within rows (code_of forest) plan n → RespondsInTime rows (code_of forest) plan n }
    ensures others { (rows : List Row) → AreDeclared rows → RespondsInTimeIf rows }
{}
