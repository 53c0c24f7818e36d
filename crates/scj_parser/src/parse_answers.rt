//! Why a file was not added.

ghost use Rattle.std.specs.Prelude.{◌≡◌};
ghost use Rattle.scj_parser.specs.declared.parse_answers.ParseError.TheVariants.{Memory as NoMemory};

use scj_base::{Found, Memory};
use std::alloc::AllocFailed;

/// Why a file was not added.
#[derive(Clone, Copy, Debug, PartialEq, Eq)]
pub enum ParseError {
    /// The file breaks a rule of syntax at a place.
    Bad(Found),
    /// There was no memory for a growth.
    Memory,
}

impl From<Memory> for ParseError {
    ghost from_gives = { λ _ answer. answer ≡ NoMemory };

    fn from(_error: Memory) -> ParseError {
        ParseError::Memory
    }
}

impl<T: Drop> From<AllocFailed<T>> for ParseError {
    ghost from_gives = { λ _ answer. answer ≡ NoMemory };

    fn from(_error: AllocFailed<T>) -> ParseError {
        ParseError::Memory
    }
}
