//! Why a text declares nothing.

ghost use Rattle.std.specs.Prelude.{◌≡◌};
ghost use Rattle.run_plan.specs.PlanOf.{bad_key, bad_value};
ghost use Rattle.response_times.specs.Answers.{Reports};

use run_plan::KeyText;
use scj_base::Memory;
use std::alloc::{AllocError, Global};

/// Why a text declares nothing.
#[derive(Drop, Debug)]
pub enum DeclaredError {
    /// The text isn't TOML.
    NotToml,
    /// No such file has this key, or the file lacks it.
    BadKey(KeyText),
    /// The value of this key isn't one that the key may have.
    BadValue(KeyText),
    /// There was no memory for a growth.
    Memory,
}

impl From<AllocError> for DeclaredError {
    ghost use Rattle.response_times.specs.declared.answers.DeclaredError.TheVariants as answer;

    ghost from_gives = { λ _ e. e ≡ answer.Memory };

    fn from(_error: AllocError) -> DeclaredError {
        DeclaredError::Memory
    }
}

impl From<Memory> for DeclaredError {
    ghost use Rattle.response_times.specs.declared.answers.DeclaredError.TheVariants as answer;

    ghost from_gives = { λ _ e. e ≡ answer.Memory };

    fn from(_error: Memory) -> DeclaredError {
        DeclaredError::Memory
    }
}

/// The answer that a key is wrong or missing.
pub(crate) fn bad_key(alloc: Global, key: &str) -> DeclaredError
    ensures { Reports (bad_key key.now) result }
{
    match String::from_str(alloc, key) {
        Ok(text) => DeclaredError::BadKey(KeyText(text)),
        Err(_) => DeclaredError::Memory,
    }
}

/// The answer that the value of a key is wrong.
pub(crate) fn bad_value(alloc: Global, key: &str) -> DeclaredError
    ensures { Reports (bad_value key.now) result }
{
    match String::from_str(alloc, key) {
        Ok(text) => DeclaredError::BadValue(KeyText(text)),
        Err(_) => DeclaredError::Memory,
    }
}
