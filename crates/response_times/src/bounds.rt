//! The responses of rows, and claimed ones checked.

ghost use Rattle.std.specs.Prelude.{◌≡◌, ℕ, true, IfOk};
ghost use Rattle.scj_tree.specs.Forest.{Forest};
ghost use Rattle.accepted_laws.specs.Programs.{IsAcceptedProgram};
ghost use Rattle.scj_model.specs.Code.{code_of};
ghost use Rattle.scj_model.specs.Plan.{Plan};
ghost use Rattle.response_bounds.specs.Responses.{are_bounds, responses_of};
ghost use Rattle.response_bounds.specs.Rows.{AreDeclared};
ghost use Rattle.response_times.specs.Runs.{RespondsAsClaimed, Within};

use response_bounds::{Declared, Response, are_bounds};
use std::alloc::{AllocError, Global};

/// The response of each row, in the order of the rows.
#[tactic(auto, using(response_bounds::proofs::FoundBounds::all_right))]
pub fn respond(alloc: Global, rows: &[Declared]) -> Result<Vec<Response>, AllocError>
    requires { AreDeclared rows.now }
    ensures responses { IfOk result (λ answer. answer.items ≡ responses_of rows.now) }
    ensures right { IfOk result (λ answer. are_bounds rows.now answer.items ≡ true) }
{
    response_bounds::respond(alloc, rows)
}

/// Whether the claims are one for each row, and each of them is right.
///
/// Where they are, in every run of an accepted program that stays within the rows, each release of a handler with a
/// bound has ended or was dropped that many units after it was ready, or the run has spent its units before.
pub fn check_response(rows: &[Declared], answer: &[Response]) -> bool
    requires { AreDeclared rows.now }
    ensures right { result ≡ are_bounds rows.now answer.now }
    ensures times { result ≡ true → (forest : Forest) → IsAcceptedProgram forest → (plan : Plan) (n : ℕ) →
        Within rows.now (code_of forest) plan n → RespondsAsClaimed answer.now (code_of forest) plan n }
{
    are_bounds(rows, answer)
}
