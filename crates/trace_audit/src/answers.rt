//! What an audit answers.

/// What an audit answers.
#[derive(Clone, Copy, Debug, PartialEq, Eq)]
pub enum Audit {
    /// Each line passes, and the last one ends the trace.
    Yes,
    /// This line is the first that doesn't pass, counted from 1. Where all lines pass and none ends the trace, it is the
    /// one that is missing.
    No { line: u64 },
}
