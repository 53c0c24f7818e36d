//! The texts of plans and of declared rows, read, and what is told of one that is none.

ghost use Rattle.std.specs.Prelude.{◌≡◌, IfOk, IfErr, Err};
ghost use Rattle.run_plan.specs.PlanOf.{Meaning, meaning_of_text, plan, not_toml, bad_key, bad_value};
ghost use Rattle.run_plan.specs.Answers.{ReportsMeaning};
ghost use Rattle.response_bounds.specs.Rows.{AreDeclared};
ghost use Rattle.response_times.specs.DeclaredOf.{DeclaredMeaning, declared_of_text, declared};
ghost use Rattle.response_times.specs.Answers.{ReportsDeclared};
ghost use Rattle.scj_cli.specs.Judgements.{RefusesPlan, RefusesDeclared};
ghost use Rattle.scj_cli.specs.Outcomes.{plan_line};

use crate::keys::key_line;
use crate::refusals::Refusal;
use response_times::{DeclaredError, DeclaredFile, read_declared};
use run_plan::{Plan, PlanError, read_plan};
use std::alloc::{AllocError, Global};

/// The plan that a text is.
pub fn plan_in(alloc: Global, text: &[u8]) -> Result<Plan, Refusal>
    ensures ok { IfOk result (λ p. meaning_of_text text.now ≡ plan p) }
    ensures refusal { IfErr result (λ refusal. RefusesPlan (meaning_of_text text.now) refusal) }
{
    match read_plan(alloc, text) {
        Ok(plan) => Ok(plan),
        Err(answer) => Err(refusal_of(alloc, &answer)?),
    }
}

/// What is told of a text that is no plan.
fn refusal_of(alloc: Global, answer: &PlanError) -> Result<Refusal, AllocError>
    ensures { IfOk result
        (λ refusal. (meaning : Meaning) → ReportsMeaning meaning (Err answer.now) → RefusesPlan meaning refusal) }
{
    match answer {
        PlanError::NotToml => Ok(Refusal::Unplanned(not_toml(alloc)?)),
        PlanError::BadKey(key) => Ok(Refusal::Unplanned(bad_key(alloc, &key.0)?)),
        PlanError::BadValue(key) => Ok(Refusal::Unplanned(bad_value(alloc, &key.0)?)),
        PlanError::Memory => Ok(Refusal::OutOfMemory),
    }
}

/// The declared rows that a text is, with the bounds that it claims for them.
pub fn declared_in(alloc: Global, text: &[u8]) -> Result<DeclaredFile, Refusal>
    ensures ok { IfOk result (λ file. declared_of_text text.now ≡ declared file.rows file.claimed) }
    ensures rows { IfOk result (λ file. AreDeclared file.rows) }
    ensures refusal { IfErr result (λ refusal. RefusesDeclared (declared_of_text text.now) refusal) }
{
    match read_declared(alloc, text) {
        Ok(file) => Ok(file),
        Err(error) => Err(refusal_of_rows(alloc, &error)?),
    }
}

/// What is told of a text that has no declared rows.
fn refusal_of_rows(alloc: Global, error: &DeclaredError) -> Result<Refusal, AllocError>
    ensures { IfOk result
        (λ refusal. (meaning : DeclaredMeaning) → ReportsDeclared meaning (Err error.now) →
        RefusesDeclared meaning refusal) }
{
    match error {
        DeclaredError::NotToml => Ok(Refusal::Unplanned(not_toml(alloc)?)),
        DeclaredError::BadKey(key) => Ok(Refusal::Unplanned(bad_key(alloc, &key.0)?)),
        DeclaredError::BadValue(key) => Ok(Refusal::Unplanned(bad_value(alloc, &key.0)?)),
        DeclaredError::Memory => Ok(Refusal::OutOfMemory),
    }
}

/// The line of a text that isn't TOML.
#[tactic(auto, unfolding(crate::specs::Outcomes::plan_line))]
fn not_toml(alloc: Global) -> Result<Vec<u8>, AllocError>
    ensures { IfOk result (λ line. line.items ≡ plan_line not_toml) }
{
    b"scj: plan not toml\n".to_vec(alloc)
}

/// The line of a wrong key.
#[tactic(auto, unfolding(crate::specs::Outcomes::plan_line))]
fn bad_key(alloc: Global, key: &str) -> Result<Vec<u8>, AllocError>
    ensures { IfOk result (λ line. line.items ≡ plan_line (bad_key key.now)) }
{
    key_line(alloc, b"scj: plan bad key ", key.as_bytes())
}

/// The line of a wrong value.
#[tactic(auto, unfolding(crate::specs::Outcomes::plan_line))]
fn bad_value(alloc: Global, key: &str) -> Result<Vec<u8>, AllocError>
    ensures { IfOk result (λ line. line.items ≡ plan_line (bad_value key.now)) }
{
    key_line(alloc, b"scj: plan bad value ", key.as_bytes())
}
