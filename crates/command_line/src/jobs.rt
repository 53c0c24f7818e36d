//! What the words of a call ask for.

ghost use Rattle.std.specs.Prelude.{◌≡◌};

use std::alloc::AllocError;

/// What the words of a call ask for.
#[derive(Debug, PartialEq, Eq, Drop)]
pub enum Job {
    /// Check the files of these names, 1 to 16, as one program.
    Check { sources: Vec<String> },
    /// Run the program of the files of these names, 1 to 16, by the plan in the file of its name.
    Run { plan: String, sources: Vec<String> },
    /// Run the same, and tell what the run needs of memory areas.
    Areas { plan: String, sources: Vec<String> },
    /// Print the files of these names, 1 to 16, in canonical form.
    Show { sources: Vec<String> },
    /// Generate a program of this size, 1 to 250, and run it.
    Gen { size: u32 },
    /// Bound the response of each row in the file of this name.
    Respond { plan: String },
    /// Confirm the bounds that the file of this name claims for its rows.
    Confirm { plan: String },
    /// List the faults of the files of these names, 1 to 16, that are certain in a run of their program.
    Faults { sources: Vec<String> },
    /// Audit the trace in the file of its name by the plan in the file of its name.
    Audit { plan: String, trace: String },
    /// Print the plan in the file of this name as one of version 2.
    Migrate { plan: String },
    /// Bound the private memories of the files of these names, 1 to 16.
    Bounds { sources: Vec<String> },
}

/// Why words give no job.
#[derive(Clone, Copy, Debug, PartialEq, Eq)]
pub enum WordsError {
    /// The words are not those of a command.
    Usage,
    /// There was no memory for a growth.
    Memory,
}

impl From<AllocError> for WordsError {
    ghost use Rattle.command_line.specs.declared.jobs.WordsError.TheVariants.{Memory};

    ghost from_gives = { λ _ e. e ≡ Memory };

    fn from(_error: AllocError) -> WordsError {
        WordsError::Memory
    }
}
