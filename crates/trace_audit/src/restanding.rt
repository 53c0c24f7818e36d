//! A release that stands otherwise from now on.

ghost use Rattle.std.specs.Prelude.{◌≡◌, ◌<◌, OnOk, map};
ghost use Rattle.std.specs.BinaryHeap.{IsHeap, heap_items};
ghost use Rattle.std.specs.Ordering.{nat_cmp};
ghost use Rattle.trace_audit.specs.Index.{HasMoreKeys, IsIndexed, all_seen, handler_seen, indices_end, rank_of};
ghost use Rattle.trace_audit.specs.Replay.{raise_to, restanding, start_with};

use crate::handlers::Handler;
use crate::keys::{key_of, rank_of};
use crate::lookups::{index_of, release_at};
use crate::releases::{Release, Standing};
use std::alloc::AllocError;
use std::collections::BinaryHeap;

/// Adds the key of a candidate.
pub fn add_key(
    handlers: &[Handler],
    release: Release,
    index: usize,
    keys: &mut BinaryHeap<u64>,
) -> Result<(), AllocError>
    requires place { index < indices_end }
    requires heap { IsHeap nat_cmp (heap_items keys.old) }
    ensures heap { OnOk result (IsHeap nat_cmp (heap_items keys.new)) }
    ensures keys { OnOk result (HasMoreKeys (heap_items keys.old) (heap_items keys.new) (rank_of (map handler_seen handlers.now) release) index) }
{
    if let Some(rank) = rank_of(handlers, release) {
        keys.push(key_of(rank, index))?;
    }
    Ok(())
}

/// Lets a release of a name stand otherwise.
pub fn restand(
    handlers: &[Handler],
    releases: &mut Vec<Release>,
    keys: &mut BinaryHeap<u64>,
    handler: u8,
    number: u64,
    standing: Standing,
) -> Result<(), AllocError>
    requires kept { IsIndexed handlers.now releases.old.items (heap_items keys.old) }
    ensures seen { OnOk result (all_seen handlers.now releases.new.items ≡ restanding (λ s. standing) handler number (all_seen handlers.now releases.old.items)) }
    ensures kept { OnOk result (IsIndexed handlers.now releases.new.items (heap_items keys.new)) }
{
    let Some(index) = index_of(handlers, handler, number) else {
        return Ok(());
    };
    let Some(release) = release_at(releases.as_slice(), index) else {
        return Ok(());
    };
    let after = Release {
        standing,
        ..release
    };
    add_key(handlers, after, index, keys)?;
    releases[index] = after;
    Ok(())
}

/// A waiting release is started with the priority; others stand as before.
pub fn start_with(priority: u8, standing: Standing) -> Standing
    ensures { result ≡ start_with priority standing }
{
    match standing {
        Standing::Waits => Standing::Started { priority },
        other => other,
    }
}

/// A started release has the priority; others stand as before.
pub fn raise_to(priority: u8, standing: Standing) -> Standing
    ensures { result ≡ raise_to priority standing }
{
    match standing {
        Standing::Started { .. } => Standing::Started { priority },
        other => other,
    }
}
