//! The handlers of a mission.

use scj_base::{ClassId, Ref};

/// When a handler is released (JSR 302: PeriodicEventHandler, OneShotEventHandler, AperiodicEventHandler).
#[derive(Clone, Copy, Debug, PartialEq, Eq)]
pub enum HandlerKind {
    /// After its start, and again after each period.
    Periodic,
    /// After its start, once.
    OneShot,
    /// When it is asked to be.
    Aperiodic,
}

/// A handler that a mission has registered. Its number is its place in the registry, counted from 1.
#[derive(Clone, Copy, Debug, PartialEq, Eq)]
pub struct HandlerRow {
    /// The handler's object.
    pub at: Ref,
    /// The object's class.
    pub class: ClassId,
    /// The priority of its releases.
    pub priority: u8,
    /// Of a periodic and of a one-shot handler the units from the origin to its first release.
    pub start: u64,
    /// Of a periodic handler the units from one release to the next; 0 of the others.
    pub period: u64,
    /// The bytes of the private memory of a release.
    pub bytes: u64,
    /// When it is released.
    pub kind: HandlerKind,
}
