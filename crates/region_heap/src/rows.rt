//! Open areas and the objects that lie in them.

use scj_base::{AreaId, ScopeId};

/// An open area: its number, its scope, the bytes of objects for which it has room, and its words from `start` to
/// `end`, of which those from `mark` on are free. The first `base` objects were made before it was opened.
#[derive(Clone, Copy)]
pub struct AreaRow {
    pub area: AreaId,
    pub scope: ScopeId,
    pub bytes: u64,
    pub start: usize,
    pub mark: usize,
    pub end: usize,
    pub base: usize,
}

/// An object of an open area: its number among all objects of the run, and its first word.
#[derive(Clone, Copy)]
pub struct ObjectRow {
    pub number: u32,
    pub first: u32,
}
