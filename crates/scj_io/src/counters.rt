//! Counters of faults.

ghost use Rattle.std.specs.Prelude.{◌≡◌, ◌≤◌};
ghost use Rattle.scj_io.specs.Counters.{one_more};

/// A count after one more fault: it stands still at the end of its type.
pub(crate) fn raised(count: u64) -> u64
    ensures value { result ≡ one_more count }
    ensures rises { count ≤ result }
{
    count.saturating_add(1)
}
