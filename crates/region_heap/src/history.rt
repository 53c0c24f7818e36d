//! What the memory of a run holds, with all areas and objects that are over, for proofs alone. It takes no memory, and
//! its functions do nothing at run time.

ghost use Rattle.std.specs.Prelude.{◌≡◌};
ghost use Rattle.std.specs.Borrow.{ftrue};
ghost use Rattle.region_heap.specs.History.{Past, after, unbegun};

use crate::changes::Change;
use std::marker::Model;

/// What happened in a run. A clause reads it as `past`.
#[derive(Drop)]
pub struct History {
    pub ghost past: { Past },
}

impl Model for History {
    ghost also_owns = { λ _. ftrue };
}

impl History {
    /// Nothing has happened.
    pub(crate) fn new() -> History
        ensures { result.past ≡ unbegun }
    {
        History {}
    }

    /// One more change has happened.
    pub(crate) fn then(&self, _change: &Change<'_>) -> History
        ensures { result.past ≡ after self.now.past _change.now }
    {
        History {}
    }
}
