//! A sink in memory.

ghost use Rattle.std.specs.Prelude.{◌≡◌, ◌↔◌, [], ◌∷◌, ◌++◌, Some, OnOk, OnErr, IsErr, IfOk};
ghost use Rattle.scj_io.specs.Counters.{one_more};
ghost use Rattle.scj_io.specs.Puts.{sink_run, PutWhole, PutFront};
ghost use Rattle.scj_io.specs.MemSinks.{RefusesPut, empty_sink};

use crate::counters::raised;
use crate::sinks::Sink;
use scj_base::{Failed, Memory};
use std::alloc::Global;
use std::marker::Model;

/// A sink that keeps what it takes, up to a capacity for which the memory is there from the start.
#[derive(Drop)]
pub struct MemSink {
    bytes: Vec<u8>,
    capacity: usize,
    failing: Vec<u64>,
    calls: u64,
    faults: u64,
}

impl Model for MemSink {
    ghost use Rattle.std.specs.Prelude.{◌≤◌, vec_len, vec_capacity};
    ghost use Rattle.scj_io.specs.MemSinks.{MemSinkView};

    ghost Value = { MemSinkView };

    ghost view = { λ sink. record {
      taken = sink.bytes.items;
      capacity = sink.capacity;
      puts = sink.calls;
      failing = sink.failing.items;
      faults = sink.faults;
    } };

    ghost invariant = { λ sink. (vec_len sink.bytes ≤ sink.capacity) × (sink.capacity ≤ vec_capacity sink.bytes) };
}

impl MemSink {
    /// An empty sink for `capacity` bytes.
    pub fn with_capacity(alloc: Global, capacity: usize) -> Result<MemSink, Memory>
        ensures { IfOk result (λ sink. sink ≡ empty_sink capacity) }
    {
        let bytes = Vec::with_capacity(alloc, capacity)?;
        Ok(MemSink {
            bytes,
            capacity,
            failing: Vec::new(alloc),
            calls: 0,
            faults: 0,
        })
    }

    /// Makes the put of this number fail, counted from 1 since the sink was made.
    pub fn fail_at(&mut self, call: u64) -> Result<(), Memory>
        ensures ok { OnOk result (self.new ≡ record self.old { failing = self.old.failing ++ call ∷ [] }) }
        ensures memory { OnErr result (self.new ≡ self.old) }
    {
        self.failing.push(call)?;
        Ok(())
    }

    /// All bytes that were taken.
    pub fn taken(&self) -> &[u8]
        ensures { result.now ≡ self.now.taken }
    {
        &self.bytes
    }
}

impl Sink for MemSink {
    ghost taken = { λ sink. Some sink.taken };

    ghost faults = { λ sink. sink.faults };

    fn put(&mut self, bytes: &[u8]) -> Result<(), Failed>
        ensures ok { OnOk result (PutWhole
            (sink_run (Some self.old.taken) (Some self.new.taken) self.old.faults self.new.faults) bytes.now) }
        ensures failed { OnErr result (PutFront
            (sink_run (Some self.old.taken) (Some self.new.taken) self.old.faults self.new.faults) bytes.now) }
        ensures exact { IsErr result ↔ RefusesPut self.old bytes.now }
        ensures accepted { OnOk result (self.new ≡ record self.old {
          taken = self.old.taken ++ bytes.now;
          puts = one_more self.old.puts;
        }) }
        ensures refused { OnErr result (self.new ≡ record self.old {
          puts = one_more self.old.puts;
          faults = one_more self.old.faults;
        }) }
    {
        self.calls = raised(self.calls);
        if self.failing.contains(&self.calls) {
            self.faults = raised(self.faults);
            return Err(Failed);
        }
        if self.capacity - self.bytes.len() < bytes.len() {
            self.faults = raised(self.faults);
            return Err(Failed);
        }
        self.bytes.extend_from_slice(bytes).unwrap();
        Ok(())
    }
}
