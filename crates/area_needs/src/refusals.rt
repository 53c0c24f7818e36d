//! Objects for which an area has no room.

use scj_base::ScopeId;

/// An area of this scope has no room for an object: with it so many bytes would be in use.
#[derive(Clone, Copy, Debug, PartialEq, Eq)]
pub struct Refusal {
    pub scope: ScopeId,
    pub bytes: u64,
}
