//! The two answers that carry nothing.

ghost use Rattle.std.specs.Prelude.{◌≡◌};

use std::alloc::{AllocError, AllocFailed};

/// There was no memory for a growth.
#[derive(Clone, Copy, Debug, PartialEq, Eq)]
pub struct Memory;

/// A sink took less than the whole piece that it was given.
#[derive(Clone, Copy, Debug, PartialEq, Eq)]
pub struct Failed;

impl From<AllocError> for Memory {
    fn from(_error: AllocError) -> Memory {
        Memory
    }
}

impl<T: Drop> From<AllocFailed<T>> for Memory {
    fn from(_error: AllocFailed<T>) -> Memory {
        Memory
    }
}
