//! The registered handlers of a mission.

ghost use Rattle.std.specs.Prelude.{◌≡◌, ◌<◌, OnOk, length, option_copied, slice_get};
ghost use Rattle.trace_audit.specs.Index.{HasIndexAdded};

use std::alloc::AllocError;

/// A handler: its priority, and the places of its releases among all of the mission.
#[derive(Drop)]
pub struct Handler {
    pub priority: u8,
    pub indices: Vec<u32>,
}

/// The handler at a place, if there is one.
pub fn handler_row(handlers: &[Handler], index: usize) -> Option<&Handler>
    ensures { option_copied result ≡ slice_get handlers.now index }
{
    handlers.get(index)
}

/// Adds the place of one more release of a handler.
pub fn add_index(handlers: &mut Vec<Handler>, handler: usize, index: u32) -> Result<(), AllocError>
    requires { handler < length handlers.old.items }
    ensures { OnOk result (HasIndexAdded handlers.old.items handlers.new.items handler index) }
{
    handlers[handler].indices.push(index)?;
    Ok(())
}
