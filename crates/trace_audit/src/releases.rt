//! The releases of a mission, as the lines of a trace tell of them.

/// How a release stands.
#[derive(Clone, Copy, Debug, PartialEq, Eq)]
pub enum Standing {
    /// It waits.
    Waits,
    /// It is under way, with this active priority.
    Started { priority: u8 },
    /// It has ended or was dropped.
    Gone,
}

/// A release of a handler, both by their numbers.
#[derive(Clone, Copy, Debug)]
pub struct Release {
    pub handler: u8,
    pub number: u32,
    pub standing: Standing,
}
