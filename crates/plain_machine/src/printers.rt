//! A printer: puts each event of a run as a line on a sink.

ghost use Rattle.std.specs.Prelude.{◌≡◌, length, IfOk, IfErr, OnOk, IsTrue};
ghost use Rattle.scj_io.specs.Puts.{sink_run, PutWhole};
ghost use Rattle.scj_model.specs.TraceText.{line_of, text};
ghost use Rattle.trace_print.specs.Room.{StandsInFile};
ghost use Rattle.plain_machine.specs.Printing.{BreaksOffIn};

use crate::runs::RunError;
use scj_base::{Files, Memory};
use scj_io::Sink;
use scj_model::Event;
use scj_rules::Checked;
use std::alloc::Global;
use std::marker::Model;
use trace_print::{Line, put_event};

/// Prints the events of a program's run. A contract sees the program and the names of its files.
#[derive(Drop)]
pub struct Printer<'a> {
    checked: &'a Checked,
    files: &'a Files,
    line: Line,
}

impl<'a> Model for Printer<'a> {
    ghost use Rattle.plain_machine.specs.Printing.{IsPrinter, PrinterSeen};

    ghost Value = { PrinterSeen };

    ghost view = { λ a. record { program = a.checked.now.program; names = a.files.now } };

    ghost invariant = { λ a. IsPrinter a.checked.now.program a.files.now a.line };
}

/// Whether the place of an event, if it has one, is in one of so many files.
fn stands_in_file(files: &Files, count: usize, event: &Event) -> bool
    requires { count ≡ length files.now }
    ensures { IsTrue result → StandsInFile files.now event.now }
{
    match event {
        Event::Fault { position, .. } => (position.file as usize) < count,
        _ => true,
    }
}

impl<'a> Printer<'a> {
    /// A printer with the memory that it needs.
    pub(crate) fn make(
        alloc: Global,
        checked: &'a Checked,
        files: &'a Files,
    ) -> Result<Printer<'a>, Memory>
        requires named { length checked.now.program.files ≡ length files.now }
        ensures { IfOk result (λ printer. printer ≡ record { program = checked.now.program; names = files.now }) }
    {
        let line = Line::make(alloc, checked, files)?;
        Ok(Printer {
            checked,
            files,
            line,
        })
    }

    /// Puts the line of an event. `Memory` comes only where a fault stands in no file of the program; that none does
    /// isn't proved.
    pub(crate) fn put<K: Sink>(&mut self, out: &mut K, event: &Event) -> Result<(), RunError>
        ensures same { self.new ≡ self.old }
        ensures ok { OnOk result (PutWhole
            (sink_run (K.taken out.old) (K.taken out.new) (K.faults out.old) (K.faults out.new))
            (line_of self.old.program.nodes self.old.names event.now)) }
        ensures stop { IfErr result (λ stop. BreaksOffIn (line_of self.old.program.nodes self.old.names event.now)
            (sink_run (K.taken out.old) (K.taken out.new) (K.faults out.old) (K.faults out.new)) stop) }
    {
        let count = self.checked.program().file_count();
        if !stands_in_file(self.files, count, event) {
            return Err(RunError::Memory);
        }
        put_event(out, &mut self.line, self.checked, self.files, event)?;
        Ok(())
    }

    /// Puts the lines of events one after the other.
    #[tactic(auto, unfolding(scj_model::specs::TraceText::text))]
    pub(crate) fn put_all<K: Sink>(&mut self, out: &mut K, events: &[Event]) -> Result<(), RunError>
        ensures same { self.new ≡ self.old }
        ensures ok { OnOk result (PutWhole
            (sink_run (K.taken out.old) (K.taken out.new) (K.faults out.old) (K.faults out.new))
            (text self.old.program.nodes self.old.names events.now)) }
        ensures stop { IfErr result (λ stop. BreaksOffIn (text self.old.program.nodes self.old.names events.now)
            (sink_run (K.taken out.old) (K.taken out.new) (K.faults out.old) (K.faults out.new)) stop) }
    {
        for event in events {
            self.put(out, event)?;
        }
        Ok(())
    }
}
