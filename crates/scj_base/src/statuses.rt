//! How a call of the program ends.

ghost use Rattle.std.specs.Prelude.{◌≡◌};
ghost use Rattle.scj_base.specs.Status.{code_of};

/// How a call of the program ends. The exit status of the program is the status's code.
#[derive(Clone, Copy, Debug, PartialEq, Eq)]
pub enum Status {
    /// What was asked for stands on the output.
    Done,
    /// The sources break a rule, and the report of the broken rules stands on the output.
    Refused,
    /// The words are not those of a command.
    Usage,
    /// The run ended with a fault outside a release.
    Halted,
    /// The plan is not one.
    PlanRefused,
    /// A file could not be read.
    ReadFault,
    /// A sink took less than it was given.
    WriteFault,
    /// There was no memory for a growth.
    NoMemory,
    /// A file has more bytes than are read.
    TooLong,
}

impl Status {
    /// The exit status.
    pub fn code(self) -> u8
        ensures { result ≡ code_of self }
    {
        match self {
            Status::Done => 0,
            Status::Refused => 1,
            Status::Usage => 2,
            Status::Halted => 3,
            Status::PlanRefused => 4,
            Status::ReadFault => 5,
            Status::WriteFault => 6,
            Status::NoMemory => 7,
            Status::TooLong => 8,
        }
    }
}
