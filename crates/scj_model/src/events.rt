//! What a trace tells.

use scj_base::{Name, NodeId, Position, RunFault};

/// What happens in a unit: one line of the trace.
#[derive(Clone, Copy, Debug)]
pub enum Event {
    /// A mission's memory is open.
    Mission {
        unit: u64,
        class: Name,
    },
    /// A handler is registered for the first time.
    Register {
        unit: u64,
        handler: u8,
        class: Name,
        priority: u8,
    },
    /// `initialize` has left.
    Exec {
        unit: u64,
    },
    /// A release is taken in.
    Arrive {
        unit: u64,
        handler: u8,
        number: u64,
    },
    /// A release too many waits, and is none.
    Lost {
        unit: u64,
        handler: u8,
    },
    /// A fire has no effect.
    Miss {
        unit: u64,
        name: Name,
    },
    /// A release is chosen that wasn't chosen last.
    Run {
        unit: u64,
        handler: u8,
        number: u64,
    },
    /// Nobody is chosen, and the last choice was a release, or execution has just begun.
    Idle {
        unit: u64,
    },
    /// The active priority of a release is another one.
    Prio {
        unit: u64,
        handler: u8,
        priority: u8,
    },
    /// A program prints.
    Print {
        unit: u64,
        label: NodeId,
        value: i32,
    },
    /// A fault.
    Fault {
        unit: u64,
        fault: RunFault,
        position: Position,
    },
    /// A release ends.
    End {
        unit: u64,
        handler: u8,
        number: u64,
    },
    /// The mission is asked to end.
    Terminate {
        unit: u64,
    },
    /// A waiting release is let go.
    Drop {
        unit: u64,
        handler: u8,
        number: u64,
    },
    /// Execution is over, or is left out.
    Cleanup {
        unit: u64,
    },
    /// There is no further mission.
    Done {
        unit: u64,
    },
    /// The sequencer met a fault.
    Halted {
        unit: u64,
    },
    /// The units of the plan are spent.
    Stopped {
        unit: u64,
    },
}
