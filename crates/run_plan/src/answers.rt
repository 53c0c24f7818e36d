//! Why a text gives no plan.

ghost use Rattle.std.specs.Prelude.{◌≡◌, string_bytes};
ghost use Rattle.run_plan.specs.Answers.{Reports};
ghost use Rattle.run_plan.specs.PlanOf.{bad_key, bad_value};

use scj_base::Memory;
use std::alloc::{AllocError, Global};
use std::marker::Model;

/// A key of a table, as it stands in the text or is missing there. A contract sees its bytes.
#[derive(Drop, Debug)]
pub struct KeyText(pub String);

impl Model for KeyText {
    ghost use Rattle.std.specs.Prelude.{ℕ, List, string_bytes};

    ghost Value = { List ℕ };

    ghost view = { λ key. string_bytes key.0 };
}

/// Why a text gives no plan.
#[derive(Drop, Debug)]
pub enum PlanError {
    /// The text isn't TOML.
    NotToml,
    /// No plan has this key, or the plan lacks it.
    BadKey(KeyText),
    /// The value of this key isn't one that the key may have.
    BadValue(KeyText),
    /// There was no memory for a growth.
    Memory,
}

impl From<AllocError> for PlanError {
    ghost use Rattle.run_plan.specs.declared.answers.PlanError.TheVariants as answer;

    ghost from_gives = { λ _ e. e ≡ answer.Memory };

    fn from(_error: AllocError) -> PlanError {
        PlanError::Memory
    }
}

impl From<Memory> for PlanError {
    ghost use Rattle.run_plan.specs.declared.answers.PlanError.TheVariants as answer;

    ghost from_gives = { λ _ e. e ≡ answer.Memory };

    fn from(_error: Memory) -> PlanError {
        PlanError::Memory
    }
}

/// The answer that a key is wrong or missing.
pub(crate) fn bad_key(alloc: Global, key: &str) -> PlanError
    ensures { Reports (bad_key key.now) result }
{
    match String::from_str(alloc, key) {
        Ok(text) => PlanError::BadKey(KeyText(text)),
        Err(_) => PlanError::Memory,
    }
}

/// The answer that the value of a key is wrong.
pub(crate) fn bad_value(alloc: Global, key: &str) -> PlanError
    ensures { Reports (bad_value key.now) result }
{
    match String::from_str(alloc, key) {
        Ok(text) => PlanError::BadValue(KeyText(text)),
        Err(_) => PlanError::Memory,
    }
}
