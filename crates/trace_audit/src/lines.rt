//! What a line of a trace tells.

use scj_base::Name;

/// What happens, as far as an audit asks.
#[derive(Clone, Copy, Debug)]
pub enum Entry {
    /// A mission's memory is open.
    Mission,
    /// A handler is registered.
    Register { handler: u8, priority: u8 },
    /// Execution begins with the next unit.
    Exec,
    /// A release is taken in.
    Arrive { handler: u8, number: u64 },
    /// A release too many waits, and is none.
    Lost,
    /// A fire has no effect.
    Miss { name: Name },
    /// A release is chosen.
    Run { handler: u8, number: u64 },
    /// Nobody is chosen.
    Idle,
    /// The active priority of a release is another one.
    Prio { handler: u8, priority: u8 },
    /// The program prints.
    Print,
    /// A fault.
    Fault,
    /// A release has ended.
    End { handler: u8, number: u64 },
    /// The mission is asked to end.
    Terminate,
    /// A waiting release is dropped.
    Drop { handler: u8, number: u64 },
    /// Execution is over, or is left out.
    Cleanup,
    /// There is no further mission.
    Done,
    /// The sequencer met a fault.
    Halted,
    /// The units of the plan are spent.
    Stopped,
}

/// A line of a trace: its unit, and what happens in it.
#[derive(Clone, Copy, Debug)]
pub struct Line {
    pub unit: u64,
    pub entry: Entry,
}
