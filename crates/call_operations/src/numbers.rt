//! The times that the framework's calls take.

ghost use Rattle.std.specs.Prelude.{◌≡◌, pos};
ghost use Rattle.scj_model.specs.Operations.{times_of, units_of};

/// So many milliseconds and nanoseconds in units.
fn units(ms: u32, ns: u32) -> Option<u64>
    ensures { result ≡ units_of (pos ms) (pos ns) }
{
    if ns % 1000 == 0 && ns < 1_000_000 {
        Some(1000 * u64::from(ms) + u64::from(ns / 1000))
    } else {
        None
    }
}

/// A time in units, where no part is negative and the nanoseconds are whole units below a millisecond (JSR 302:
/// RelativeTime).
#[tactic(auto, using(crate::proofs::NumberLemmas::units_negative, crate::proofs::NumberLemmas::units_whole))]
pub fn units_of(ms: i32, ns: i32) -> Option<u64>
    ensures { result ≡ units_of ms ns }
{
    if ms < 0 {
        return None;
    }
    if ns < 0 {
        return None;
    }
    units(ms.unsigned_abs(), ns.unsigned_abs())
}

/// The start and the period of a periodic handler in units, where they are right (JSR 302: PeriodicParameters).
pub fn times_of(start_ms: i32, start_ns: i32, period_ms: i32, period_ns: i32) -> Option<(u64, u64)>
    ensures { result ≡ times_of start_ms start_ns period_ms period_ns }
{
    let start = units_of(start_ms, start_ns)?;
    let period = units_of(period_ms, period_ns)?;
    Some((start, period))
}
