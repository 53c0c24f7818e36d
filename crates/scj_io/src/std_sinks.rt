//! A sink over a writer of the standard library.

ghost use Rattle.std.specs.Prelude.{◌≡◌, None, OnOk, OnErr, is_ok, if◌then◌else◌};
ghost use Rattle.scj_io.specs.Counters.{one_more};
ghost use Rattle.scj_io.specs.Puts.{sink_run, PutWhole, PutFront};
ghost use Rattle.scj_io.specs.StdSinks.{AppendsFront, writer_of, faults_of};
ghost use Rattle.std.specs.Io.KnownBytes.{Appends};

use crate::counters::raised;
use crate::sinks::Sink;
use scj_base::Failed;
use std::io::Write;

/// A sink over a writer that passes its bytes on at once, as a terminal or a file does: nothing here
/// flushes a writer that keeps some back.
///
/// It doesn't tell what it has taken, and counts each put that the writer doesn't take whole.
#[derive(Drop)]
pub struct StdSink<W> {
    writer: W,
    faults: u64,
}

impl<W: Write> StdSink<W> {
    /// A sink that has counted no fault.
    pub fn new(writer: W) -> StdSink<W>
        ensures { ⟦<StdSink<W> as Sink>⟧.faults result ≡ 0 }
    {
        StdSink { writer, faults: 0 }
    }
}

impl<W: Write> Sink for StdSink<W> {
    ghost taken = { λ _. None };

    ghost faults = { faults_of };

    fn put(&mut self, bytes: &[u8]) -> Result<(), Failed>
        ensures ok { OnOk result (PutWhole (sink_run None None (faults_of self.old) (faults_of self.new)) bytes.now) }
        ensures failed { OnErr result
            (PutFront (sink_run None None (faults_of self.old) (faults_of self.new)) bytes.now) }
        ensures wrote { OnOk result
            (Appends (W.contents (writer_of self.old)) (W.contents (writer_of self.new)) bytes.now) }
        ensures broke_off { OnErr result
            (AppendsFront (W.contents (writer_of self.old)) (W.contents (writer_of self.new)) bytes.now) }
        ensures counted { faults_of self.new
            ≡ (if is_ok result then faults_of self.old else one_more (faults_of self.old)) }
    {
        match write_whole(&mut self.writer, bytes) {
            Ok(()) => Ok(()),
            Err(Failed) => {
                self.faults = raised(self.faults);
                Err(Failed)
            }
        }
    }
}

// A write that takes no byte fails, so that each turn takes one.
fn write_whole<W: Write>(writer: &mut W, bytes: &[u8]) -> Result<(), Failed>
    ensures ok { OnOk result (Appends (W.contents writer.old) (W.contents writer.new) bytes.now) }
    ensures failed { OnErr result (AppendsFront (W.contents writer.old) (W.contents writer.new) bytes.now) }
{
    let mut rest = bytes;
    while !rest.is_empty() {
        match writer.write(rest) {
            Ok(0) | Err(_) => return Err(Failed),
            Ok(count) => rest = &rest[count..],
        }
    }
    Ok(())
}
