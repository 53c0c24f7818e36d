//! What is declared of a handler.

/// What is declared of a handler: row k - 1 speaks of handler k. Costs, gaps and sections are in units; in each unit
/// one operation is done.
#[derive(Clone, Copy, Debug, PartialEq, Eq)]
pub struct Declared {
    /// The priority of the handler, from 1 to 28.
    pub priority: u8,
    /// The most operations of a release.
    pub cost: u64,
    /// The fewest units from a release to the next one.
    pub gap: u64,
    /// The most operations that a release does in one stretch above its own priority.
    pub section: u64,
    /// The greatest active priority of a release.
    pub ceiling: u8,
}
