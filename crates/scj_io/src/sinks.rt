//! Where bytes go.

ghost use Rattle.std.specs.Prelude.{◌≡◌, ◌<◌, ℕ, List, [], length, Option, IsOk, OnOk, OnErr};
ghost use Rattle.scj_io.specs.Puts.{sink_run, PutWhole, PutFront};

use scj_base::Failed;

/// A place that takes bytes.
///
/// `taken` is all that the sink has taken so far, if it tells, and `faults` its count of failed puts.
pub trait Sink {
    ghost taken: { Self → Option (List ℕ) };

    ghost faults: { Self → ℕ };

    /// Hands the sink a piece that isn't empty. After an `Err` a front of it may have been taken.
    fn put(&mut self, bytes: &[u8]) -> Result<(), Failed>
        requires { 0 < length bytes.now }
        ensures ok { OnOk result (PutWhole
            (sink_run (taken self.old) (taken self.new) (faults self.old) (faults self.new)) bytes.now) }
        ensures failed { OnErr result (PutFront
            (sink_run (taken self.old) (taken self.new) (faults self.old) (faults self.new)) bytes.now) };
}

/// Hands a sink bytes of which there may be none, by at most one put.
pub fn put_all<K: Sink>(out: &mut K, bytes: &[u8]) -> Result<(), Failed>
    ensures ok { OnOk result (PutWhole
        (sink_run (K.taken out.old) (K.taken out.new) (K.faults out.old) (K.faults out.new)) bytes.now) }
    ensures nothing { length bytes.now ≡ 0 → IsOk result × (out.new ≡ out.old) }
    ensures failed { OnErr result (PutFront
        (sink_run (K.taken out.old) (K.taken out.new) (K.faults out.old) (K.faults out.new)) bytes.now) }
{
    if bytes.is_empty() {
        return Ok(());
    }
    out.put(bytes)
}
