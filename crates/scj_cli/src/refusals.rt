//! What a call tells where it has no answer to put on `out`.

ghost use Rattle.std.specs.Prelude.{◌≡◌};
ghost use Rattle.scj_cli.specs.Refusals.{status_of, line_of};
ghost use Rattle.scj_cli.specs.declared.refusals.Refusal.TheVariants.{OutOfMemory};
ghost use Rattle.scj_cli.specs.declared.refusals.ModeError.TheVariants.{Told, Broken};

use scj_base::{Failed, Memory, Status};
use std::alloc::AllocError;

/// What is told on `err`, where no answer stands on `out`.
#[derive(Drop)]
pub enum Refusal {
    /// The words ask for nothing.
    Usage,
    /// A file couldn't be read, with the line that says so.
    Unread(String),
    /// A file has more bytes than are read, with the line that says so.
    Overlong(String),
    /// The text of a plan is none, with the line that says so. It may end within a character of a key.
    Unplanned(Vec<u8>),
    /// There was no memory.
    OutOfMemory,
}

impl Refusal {
    /// The status that the call ends with.
    pub fn status(&self) -> Status
        ensures { result ≡ status_of self.now }
    {
        match self {
            Refusal::Usage => Status::Usage,
            Refusal::Unread(_) => Status::ReadFault,
            Refusal::Overlong(_) => Status::TooLong,
            Refusal::Unplanned(_) => Status::PlanRefused,
            Refusal::OutOfMemory => Status::NoMemory,
        }
    }

    /// The line, with its end.
    pub fn line(&self) -> &[u8]
        ensures { result.now ≡ line_of self.now }
    {
        match self {
            Refusal::Usage => b"scj: usage\n",
            Refusal::Unread(line) => line.as_bytes(),
            Refusal::Overlong(line) => line.as_bytes(),
            Refusal::Unplanned(line) => line.as_slice(),
            Refusal::OutOfMemory => b"scj: memory\n",
        }
    }
}

impl From<AllocError> for Refusal {
    ghost from_gives = { λ _ refusal. refusal ≡ OutOfMemory };

    fn from(_error: AllocError) -> Refusal {
        Refusal::OutOfMemory
    }
}

impl From<Memory> for Refusal {
    ghost from_gives = { λ _ refusal. refusal ≡ OutOfMemory };

    fn from(_error: Memory) -> Refusal {
        Refusal::OutOfMemory
    }
}

/// Why a mode stops before its answer stands on `out`.
#[derive(Drop)]
pub enum ModeError {
    /// Nothing was put on `out`, or the trace of a run up to where memory ran out, and this is to be told on `err`.
    Told(Refusal),
    /// A put failed, and nothing may be put any more.
    Broken,
}

impl From<Refusal> for ModeError {
    ghost from_gives = { λ refusal stop. stop ≡ Told refusal };

    fn from(refusal: Refusal) -> ModeError {
        ModeError::Told(refusal)
    }
}

impl From<Failed> for ModeError {
    ghost from_gives = { λ _ stop. stop ≡ Broken };

    fn from(_error: Failed) -> ModeError {
        ModeError::Broken
    }
}
