//! The mode that checks sources.

ghost use Rattle.std.specs.Prelude.{◌≡◌, [], ◌≤◌, length, map, string_bytes, IfOk, IfErr, Some};
ghost use Rattle.scj_io.specs.Loads.{ShelfGoes, shelf_run};
ghost use Rattle.scj_io.specs.Puts.{sink_run};
ghost use Rattle.command_line.specs.Job.{Check};
ghost use Rattle.scj_check.specs.Texts.{texts_of};
ghost use Rattle.scj_base.specs.declared.statuses.Status.TheVariants.{Done};
ghost use Rattle.scj_cli.specs.Answers.{Answer, accepted_line};
ghost use Rattle.scj_cli.specs.Modes.{IsAnswered, Stops, RefusesForm};

use crate::loads::load_all;
use crate::refusals::{ModeError, Refusal};
use crate::reported::{Told, refused};
use scj_base::Status;
use scj_check::{Sources, Verdict};
use scj_io::{Shelf, Sink, put_all};
use std::alloc::{AllocError, Global};

/// Checks the files of these names, and puts `accepted` or the report on `out`.
pub fn check<H: Shelf, K: Sink>(
    alloc: Global,
    names: &[String],
    shelf: &mut H,
    out: &mut K,
) -> Result<Status, ModeError>
    requires { length names.now ≤ 16 }
    ensures goes { ShelfGoes (H.held shelf.old) (H.held shelf.new) (H.faults shelf.old) (H.faults shelf.new)
        (H.most shelf.old) (H.most shelf.new) }
    ensures ok { IfOk result (λ status. IsAnswered (Some (Check (map string_bytes names.now)))
        (shelf_run (H.held shelf.old) (H.faults shelf.old) (H.faults shelf.new) (H.most shelf.new))
        (sink_run (K.taken out.old) (K.taken out.new) (K.faults out.old) (K.faults out.new)) status) }
    ensures stop { IfErr result (λ stop. Stops (Some (Check (map string_bytes names.now)))
        (shelf_run (H.held shelf.old) (H.faults shelf.old) (H.faults shelf.new) (H.most shelf.new))
        (sink_run (K.taken out.old) (K.taken out.new) (K.faults out.old) (K.faults out.new)) stop) }
{
    let sources = load_all(alloc, names, shelf)?;
    let reported = judge(alloc, names, &sources)?;
    put_all(out, reported.text.as_bytes())?;
    Ok(reported.status)
}

// The answer on the contents of the files.
fn judge(alloc: Global, names: &[String], sources: &Sources) -> Result<Told, Refusal>
    ensures ok { IfOk result
        (λ reported. Answer (Some (Check (map string_bytes names.now))) (texts_of sources.now) reported.status
        (string_bytes reported.text) []) }
    ensures refusal { IfErr result
        (λ refusal. RefusesForm (Check (map string_bytes names.now)) (texts_of sources.now) refusal) }
{
    match scj_check::check(alloc, sources)? {
        Verdict::Accepted(_) => Ok(accepted(alloc)?),
        Verdict::Refused(found) => Ok(refused(alloc, names, found.items())?),
    }
}

fn accepted(alloc: Global) -> Result<Told, AllocError>
    ensures { IfOk result (λ reported. (reported.status ≡ Done) × (string_bytes reported.text ≡ accepted_line)) }
{
    let text = String::from_str(alloc, "accepted\n")?;
    Ok(Told {
        status: Status::Done,
        text,
    })
}
