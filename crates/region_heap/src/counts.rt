//! Sums of bytes that may be larger than any number.

ghost use Rattle.std.specs.Prelude.{◌≡◌, ◌+◌, ◌-◌, ◌*◌, ◌^◌, ◌<◌, ◌≤◌, nat_lt, not};
ghost use Rattle.scj_rules.specs.Layout.{size_with_slots};
ghost use Rattle.scj_model.specs.Memory.{rounded_up};

/// Slots up to which the bytes of an object are a number.
const MOST_SLOTS: u64 = 2_305_843_009_213_693_949;

/// The bytes of an object with so many slots, or the largest number where they are more.
#[tactic(auto, unfolding(scj_rules::specs::Layout::size_with_slots))]
pub(crate) fn object_bytes(count: usize) -> u64
    ensures { size_with_slots count < 2 ^ 64 → result ≡ size_with_slots count }
{
    let slots = count as u64;
    if slots > MOST_SLOTS {
        return u64::MAX;
    }
    8 * (2 + slots)
}

/// The bytes of an area in whole words, or the largest number where they are more.
pub(crate) fn words_bytes(bytes: u64) -> u64
    ensures { rounded_up bytes < 2 ^ 64 → result ≡ rounded_up bytes }
{
    match bytes.checked_next_multiple_of(8) {
        Some(words) => words,
        None => u64::MAX,
    }
}

/// Whether so many bytes and more are in a room.
fn fits(taken: u64, more: u64, room: u64) -> bool
    ensures { result ≡ not (nat_lt room (taken + more)) }
{
    match taken.checked_add(more) {
        Some(all) => all <= room,
        None => false,
    }
}

/// Whether the store has room for one more area.
pub(crate) fn store_fits(reserved: u64, bytes: u64, store: u64) -> bool
    ensures { result ≡ not (nat_lt store (reserved + rounded_up bytes)) }
{
    match bytes.checked_next_multiple_of(8) {
        Some(more) => fits(reserved, more, store),
        None => false,
    }
}

/// Whether an area has room for one more object.
#[tactic(auto, unfolding(scj_rules::specs::Layout::size_with_slots))]
pub(crate) fn object_fits(used: u64, count: usize, bytes: u64) -> bool
    ensures { result ≡ not (nat_lt bytes (used + size_with_slots count)) }
{
    let slots = count as u64;
    if slots > MOST_SLOTS {
        return false;
    }
    fits(used, 8 * (2 + slots), bytes)
}
