//! The trace of a run, kept in memory.

ghost use Rattle.std.specs.Prelude.{◌≡◌, [], Some, OnOk, OnErr};
ghost use Rattle.scj_io.specs.Puts.{sink_run, PutWhole, PutFront};

use scj_base::Failed;
use scj_io::Sink;
use std::alloc::Global;

/// A sink that keeps what it takes in a list that grows. Want of memory is its one fault.
#[derive(Drop)]
pub struct KeptTrace {
    text: Vec<u8>,
    faults: u64,
}

impl KeptTrace {
    /// Nothing was taken yet.
    pub fn new(alloc: Global) -> KeptTrace
        ensures { result.text.items ≡ [] }
    {
        KeptTrace {
            text: Vec::new(alloc),
            faults: 0,
        }
    }

    /// All bytes that were taken.
    pub fn text(&self) -> &[u8]
        ensures { result.now ≡ self.now.text.items }
    {
        &self.text
    }
}

impl Sink for KeptTrace {
    ghost taken = { λ sink. Some sink.text.items };

    ghost faults = { λ sink. sink.faults };

    fn put(&mut self, bytes: &[u8]) -> Result<(), Failed> {
        match self.text.extend_from_slice(bytes) {
            Ok(()) => Ok(()),
            Err(_) => {
                self.faults = self.faults.saturating_add(1);
                Err(Failed)
            }
        }
    }
}
