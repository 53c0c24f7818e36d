//! The top call.

ghost use Rattle.std.specs.Prelude.{◌≡◌, [], ◌∷◌, length, map, string_bytes, IfOk, IfErr, Some};
ghost use Rattle.scj_io.specs.Loads.{ShelfGoes, shelf_run};
ghost use Rattle.scj_io.specs.Puts.{sink_run};
ghost use Rattle.command_line.specs.Job.{job_of};
ghost use Rattle.scj_cli.specs.Modes.{IsAnswered, Stops, Tells};
ghost use Rattle.scj_cli.specs.Endings.{Ends, call_of, IsExact, IsLongExactly, IsNeverAbsent};

use crate::areas::areas;
use crate::audits::audit;
use crate::bounds::bounds;
use crate::checks::check;
use crate::confirmations::confirm;
use crate::faults::faults;
use crate::gens::run_generated;
use crate::migrations::migrate;
use crate::refusals::{ModeError, Refusal};
use crate::responses::respond;
use crate::runs::run;
use crate::shows::show;
use command_line::{Job, WordsError, read_words};
use scj_base::Status;
use scj_io::{Shelf, Sink, put_all};
use std::alloc::Global;

/// Does what the words behind the program's name ask for.
///
/// The answer is put on `out`, that of a run line by line, and what is refused is told on `err` by one line. Nothing is
/// put after a put has failed.
pub fn scj<H: Shelf, K: Sink, E: Sink>(
    alloc: Global,
    words: &[String],
    shelf: &mut H,
    out: &mut K,
    err: &mut E,
) -> Status
    ensures goes { ShelfGoes (H.held shelf.old) (H.held shelf.new) (H.faults shelf.old) (H.faults shelf.new)
        (H.most shelf.old) (H.most shelf.new) }
    ensures ends { Ends (call_of (job_of (map string_bytes words.now))
        (shelf_run (H.held shelf.old) (H.faults shelf.old) (H.faults shelf.new) (H.most shelf.new))
        (sink_run (K.taken out.old) (K.taken out.new) (K.faults out.old) (K.faults out.new))
        (sink_run (E.taken err.old) (E.taken err.new) (E.faults err.old) (E.faults err.new))) result }
    ensures exact { IsExact (call_of (job_of (map string_bytes words.now))
        (shelf_run (H.held shelf.old) (H.faults shelf.old) (H.faults shelf.new) (H.most shelf.new))
        (sink_run (K.taken out.old) (K.taken out.new) (K.faults out.old) (K.faults out.new))
        (sink_run (E.taken err.old) (E.taken err.new) (E.faults err.old) (E.faults err.new))) result }
    ensures too_long { IsLongExactly (call_of (job_of (map string_bytes words.now))
        (shelf_run (H.held shelf.old) (H.faults shelf.old) (H.faults shelf.new) (H.most shelf.new))
        (sink_run (K.taken out.old) (K.taken out.new) (K.faults out.old) (K.faults out.new))
        (sink_run (E.taken err.old) (E.taken err.new) (E.faults err.old) (E.faults err.new))) result }
    ensures absent { IsNeverAbsent (call_of (job_of (map string_bytes words.now))
        (shelf_run (H.held shelf.old) (H.faults shelf.old) (H.faults shelf.new) (H.most shelf.new))
        (sink_run (K.taken out.old) (K.taken out.new) (K.faults out.old) (K.faults out.new))
        (sink_run (E.taken err.old) (E.taken err.new) (E.faults err.old) (E.faults err.new))) result }
{
    finish(alloc, words, shelf, out, err)
}

// Tells what the answer leaves to be told.
fn finish<H: Shelf, K: Sink, E: Sink>(
    alloc: Global,
    words: &[String],
    shelf: &mut H,
    out: &mut K,
    err: &mut E,
) -> Status
    ensures goes { ShelfGoes (H.held shelf.old) (H.held shelf.new) (H.faults shelf.old) (H.faults shelf.new)
        (H.most shelf.old) (H.most shelf.new) }
    ensures ends { Ends (call_of (job_of (map string_bytes words.now))
        (shelf_run (H.held shelf.old) (H.faults shelf.old) (H.faults shelf.new) (H.most shelf.new))
        (sink_run (K.taken out.old) (K.taken out.new) (K.faults out.old) (K.faults out.new))
        (sink_run (E.taken err.old) (E.taken err.new) (E.faults err.old) (E.faults err.new))) result }
{
    match answer(alloc, words, shelf, out) {
        Ok(status) => status,
        Err(ModeError::Told(refusal)) => tell(&refusal, err),
        Err(ModeError::Broken) => Status::WriteFault,
    }
}

// The answer on `out`.
fn answer<H: Shelf, K: Sink>(
    alloc: Global,
    words: &[String],
    shelf: &mut H,
    out: &mut K,
) -> Result<Status, ModeError>
    ensures goes { ShelfGoes (H.held shelf.old) (H.held shelf.new) (H.faults shelf.old) (H.faults shelf.new)
        (H.most shelf.old) (H.most shelf.new) }
    ensures ok { IfOk result (λ status. IsAnswered (job_of (map string_bytes words.now))
        (shelf_run (H.held shelf.old) (H.faults shelf.old) (H.faults shelf.new) (H.most shelf.new))
        (sink_run (K.taken out.old) (K.taken out.new) (K.faults out.old) (K.faults out.new)) status) }
    ensures stop { IfErr result (λ stop. Stops (job_of (map string_bytes words.now))
        (shelf_run (H.held shelf.old) (H.faults shelf.old) (H.faults shelf.new) (H.most shelf.new))
        (sink_run (K.taken out.old) (K.taken out.new) (K.faults out.old) (K.faults out.new)) stop) }
{
    match read_words(alloc, words) {
        Ok(Job::Check { sources }) => check(alloc, &sources, shelf, out),
        Ok(Job::Run { plan, sources }) => run(alloc, &plan, &sources, shelf, out),
        Ok(Job::Areas { plan, sources }) => areas(alloc, &plan, &sources, shelf, out),
        Ok(Job::Show { sources }) => show(alloc, &sources, shelf, out),
        Ok(Job::Gen { size }) => {
            let status = run_generated(alloc, size, out)?;
            Ok(status)
        }
        Ok(Job::Respond { plan }) => respond(alloc, &plan, shelf, out),
        Ok(Job::Confirm { plan }) => confirm(alloc, &plan, shelf, out),
        Ok(Job::Faults { sources }) => faults(alloc, &sources, shelf, out),
        Ok(Job::Audit { plan, trace }) => audit(alloc, &plan, &trace, shelf, out),
        Ok(Job::Migrate { plan }) => migrate(alloc, &plan, shelf, out),
        Ok(Job::Bounds { sources }) => bounds(alloc, &sources, shelf, out),
        Err(WordsError::Usage) => Err(ModeError::Told(Refusal::Usage)),
        Err(WordsError::Memory) => Err(ModeError::Told(Refusal::OutOfMemory)),
    }
}

// Tells a refusal on `err`.
fn tell<E: Sink>(refusal: &Refusal, err: &mut E) -> Status
    ensures { Tells (sink_run (E.taken err.old) (E.taken err.new) (E.faults err.old) (E.faults err.new)) refusal.now
        result }
{
    match put_all(err, refusal.line()) {
        Ok(()) => refusal.status(),
        Err(_) => Status::WriteFault,
    }
}
