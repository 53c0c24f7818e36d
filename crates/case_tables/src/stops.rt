//! Why a program over a table of cases stops before the end of its input.

use scj_base::Memory;
use std::alloc::{AllocError, AllocFailed};
use std::io;

#[derive(Debug, Drop)]
pub enum TableError {
    /// There was no memory.
    Memory,
    /// The table couldn't be read, or an answer couldn't be printed.
    Stream(io::Error),
    /// A line isn't as the program's head says.
    BadLine,
    /// A file that the table names isn't there.
    NoFile,
}

impl From<AllocError> for TableError {
    ghost use Rattle.std.specs.Prelude.{◌≡◌};
    ghost use Rattle.case_tables.specs.declared.stops.TableError.TheVariants.{Memory as NoMemory};

    ghost from_gives = { λ _ stop. stop ≡ NoMemory };

    fn from(_error: AllocError) -> TableError {
        TableError::Memory
    }
}

impl<T: Drop> From<AllocFailed<T>> for TableError {
    ghost use Rattle.std.specs.Prelude.{◌≡◌};
    ghost use Rattle.case_tables.specs.declared.stops.TableError.TheVariants.{Memory as NoMemory};

    ghost from_gives = { λ _ stop. stop ≡ NoMemory };

    fn from(_error: AllocFailed<T>) -> TableError {
        TableError::Memory
    }
}

impl From<Memory> for TableError {
    ghost use Rattle.std.specs.Prelude.{◌≡◌};
    ghost use Rattle.case_tables.specs.declared.stops.TableError.TheVariants.{Memory as NoMemory};

    ghost from_gives = { λ _ stop. stop ≡ NoMemory };

    fn from(_error: Memory) -> TableError {
        TableError::Memory
    }
}

impl From<io::Error> for TableError {
    fn from(error: io::Error) -> TableError {
        TableError::Stream(error)
    }
}
