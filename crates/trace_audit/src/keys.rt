//! The keys of candidates, by which the most urgent one is found.

ghost use Rattle.std.specs.Prelude.{◌≡◌, ◌≤◌, ◌<◌, ◌+◌, IfSome, MatchOption, Some, None, OnOk, length, map, true, if◌then◌else◌};
ghost use Rattle.std.specs.BinaryHeap.{IsHeap, heap_items};
ghost use Rattle.std.specs.Ordering.{nat_cmp};
ghost use Rattle.trace_audit.specs.Index.{HasKeys, all_seen, handler_seen, is_current as current, key_of, indices_end, rank_of};
ghost use Rattle.trace_audit.specs.Replay.{picked_index, priority_at};

use crate::handlers::{Handler, handler_row};
use crate::releases::{Release, Standing};
use std::collections::BinaryHeap;

/// The priority of a registered handler, and 0 of another one.
pub fn priority_of(handlers: &[Handler], handler: u8) -> u8
    ensures { result ≡ priority_at (map handler_seen handlers.now) handler }
{
    if handler == 0 {
        return 0;
    }
    let index = handler as usize - 1;
    match handler_row(handlers, index) {
        Some(row) => row.priority,
        None => 0,
    }
}

/// How urgent a release is, besides its place, if it waits or is started.
pub fn rank_of(handlers: &[Handler], release: Release) -> Option<u64>
    ensures rank { result ≡ rank_of (map handler_seen handlers.now) release }
    ensures small { IfSome result (λ rank. rank ≤ 511) }
{
    match release.standing {
        Standing::Waits => Some(2 * priority_of(handlers, release.handler) as u64),
        Standing::Started { priority } => Some(2 * priority as u64 + 1),
        Standing::Gone => None,
    }
}

/// The key of a candidate.
pub fn key_of(rank: u64, index: usize) -> u64
    requires rank { rank ≤ 511 }
    requires place { index < indices_end }
    ensures { result ≡ key_of rank index }
{
    rank * 4_294_967_296 + (4_294_967_295 - index as u64)
}

/// Whether the key is that of a candidate now; others are left from before.
fn is_current(handlers: &[Handler], releases: &[Release], key: u64) -> bool
    ensures { result ≡ current (all_seen handlers.now releases.now) key }
{
    let index = 4_294_967_295 - key % 4_294_967_296;
    match releases.get(index as usize) {
        Some(release) => rank_of(handlers, *release) == Some(key / 4_294_967_296),
        None => false,
    }
}

/// The place of the most urgent release. Keys that are left from before are taken out.
#[tactic(auto, using(crate::proofs::Picks::picked_by_key, crate::proofs::Picks::none_picked, crate::proofs::Picks::has_keys_popped))]
pub fn pick(handlers: &[Handler], releases: &[Release], keys: &mut BinaryHeap<u64>) -> Option<usize>
    requires ordered { IsHeap nat_cmp (heap_items keys.old) }
    requires keyed { HasKeys (all_seen handlers.now releases.now) (heap_items keys.old) }
    ensures place { result ≡ picked_index (all_seen handlers.now releases.now) }
    ensures ordered { IsHeap nat_cmp (heap_items keys.new) }
    ensures keyed { HasKeys (all_seen handlers.now releases.now) (heap_items keys.new) }
{
    while let Some(key) = keys.peek() {
        let key = *key;
        if is_current(handlers, releases, key) {
            return Some((4_294_967_295 - key % 4_294_967_296) as usize);
        }
        keys.pop();
    }
    None
}
