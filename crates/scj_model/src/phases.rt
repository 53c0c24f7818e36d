//! The phases of a run.

/// Where a run stands in the life of its missions.
#[derive(Clone, Copy, Debug, PartialEq, Eq)]
pub enum Phase {
    /// Until `getSequencer` has left.
    Boot,
    /// While the next mission is asked for, and until its memory is open.
    Next,
    /// While the mission is initialised.
    Init,
    /// While the mission's handlers are released.
    Exec,
    /// While the mission cleans up.
    Cleanup,
    /// After the last unit of a run that is done or halted.
    Over,
}
