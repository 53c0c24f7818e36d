//! Whose turn it is.

ghost use Rattle.std.specs.Prelude.{◌≡◌};
ghost use Rattle.trace_audit.specs.Passing.{number_in};
ghost use Rattle.trace_audit.specs.Replay.{is_same_choice};

/// A choice: a release of a handler, both by their numbers, or nobody.
#[derive(Clone, Copy, Debug, PartialEq, Eq)]
pub enum Choice {
    Idle,
    Chosen { handler: u8, number: u64 },
}

/// Whether two choices are the same.
pub fn is_same_choice(choice: Choice, other: Choice) -> bool
    ensures { result ≡ is_same_choice choice other }
{
    choice == other
}

/// The number of the release that a choice is.
pub fn number_in(choice: Choice) -> u64
    ensures { result ≡ number_in choice }
{
    match choice {
        Choice::Idle => 0,
        Choice::Chosen { number, .. } => number,
    }
}
