//! What a plan lets happen from outside: releases of handlers, and what the device reads.

use scj_base::Name;

/// From when the unit of a fire is counted.
#[derive(Clone, Copy, Debug, PartialEq, Eq)]
pub enum FireFrom {
    /// From the start of the run: the fire comes once.
    Start,
    /// From the origin of each mission: the fire comes in each that lasts until then.
    Mission,
}

/// A release of an aperiodic handler from outside.
#[derive(Clone, Copy, Debug)]
pub struct Fire {
    /// The unit in which it comes.
    pub at: u64,
    /// The handler's class.
    pub handler: Name,
    /// From when the unit is counted.
    pub from: FireFrom,
}

/// What a port of the device reads from a unit on.
#[derive(Clone, Copy, Debug)]
pub struct ReadingRow {
    /// The port.
    pub port: u8,
    /// The first unit.
    pub at: u64,
    /// The value.
    pub value: i32,
}
