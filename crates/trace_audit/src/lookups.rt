//! Releases found by their names and places.

ghost use Rattle.std.specs.Prelude.{◌≡◌, Some, map, slice_get};
ghost use Rattle.trace_audit.specs.Index.{HasIndices, all_seen, handler_seen, is_next as next, index_kept, standing_named};
ghost use Rattle.trace_audit.specs.Replay.{choice_at};

use crate::choices::Choice;
use crate::handlers::{Handler, handler_row};
use crate::releases::{Release, Standing};

/// The place of a handler's release of a number.
pub fn index_of(handlers: &[Handler], handler: u8, number: u64) -> Option<usize>
    ensures { result ≡ index_kept handlers.now handler number }
{
    if handler == 0 || number == 0 {
        return None;
    }
    let row = handlers.get(handler as usize - 1)?;
    let index = row.indices.get(number as usize - 1)?;
    Some(*index as usize)
}

/// The release at a place, if there is one.
pub fn release_at(releases: &[Release], index: usize) -> Option<Release>
    ensures { result ≡ slice_get releases.now index }
{
    releases.get(index).copied()
}

/// How a release of a name stands.
#[tactic(auto, using(crate::proofs::Places::standing_nowhere, crate::proofs::Places::standing_at))]
pub fn standing_of(
    handlers: &[Handler],
    releases: &[Release],
    handler: u8,
    number: u64,
) -> Option<Standing>
    requires placed { HasIndices handlers.now releases.now }
    ensures { result ≡ standing_named (all_seen handlers.now releases.now) handler number }
{
    let Some(index) = index_of(handlers, handler, number) else {
        return None;
    };
    match release_at(releases, index) {
        Some(release) => Some(release.standing),
        None => None,
    }
}

/// Whether the number is that of the handler's next release.
pub fn is_next(handlers: &[Handler], handler: u8, number: u64) -> bool
    ensures { result ≡ next (map handler_seen handlers.now) handler number }
{
    if handler == 0 {
        return false;
    }
    let index = handler as usize - 1;
    match handler_row(handlers, index) {
        Some(row) => number != 0 && number - 1 == row.indices.len() as u64,
        None => false,
    }
}

/// The choice of the release at a place.
pub fn choice_of(releases: &[Release], index: usize) -> Choice
    ensures { result ≡ choice_at releases.now (Some index) }
{
    match releases.get(index) {
        Some(release) => Choice::Chosen {
            handler: release.handler,
            number: release.number as u64,
        },
        None => Choice::Idle,
    }
}
