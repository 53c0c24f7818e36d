//! The mode that lists the faults that are certain in a run of sources.

ghost use Rattle.std.specs.Prelude.{◌≡◌, [], ◌≤◌, length, map, string_bytes, IfOk, IfErr, Some};
ghost use Rattle.scj_io.specs.Loads.{ShelfGoes, shelf_run};
ghost use Rattle.scj_io.specs.Puts.{sink_run};
ghost use Rattle.scj_model.specs.Code.{code_of};
ghost use Rattle.command_line.specs.Job.{Faults};
ghost use Rattle.certain_faults.specs.Report.{IsFaultReport};
ghost use Rattle.scj_check.specs.Texts.{texts_of};
ghost use Rattle.scj_base.specs.declared.statuses.Status.TheVariants.{Done};
ghost use Rattle.scj_cli.specs.Answers.{Answer};
ghost use Rattle.scj_cli.specs.FaultLists.{fault_list};
ghost use Rattle.scj_cli.specs.Modes.{IsAnswered, Stops, RefusesForm};

use crate::fault_lists::fault_list;
use crate::loads::load_all;
use crate::refusals::{ModeError, Refusal};
use crate::reported::{Told, refused};
use certain_faults::{CertainFault, certain_faults};
use scj_base::{Memory, Status};
use scj_check::{Sources, Verdict};
use scj_io::{Shelf, Sink, put_all};
use scj_rules::Checked;
use std::alloc::{AllocError, Global};

/// Puts the faults that are certain in a run of the files of these names on `out`, or the report.
pub fn faults<H: Shelf, K: Sink>(
    alloc: Global,
    names: &[String],
    shelf: &mut H,
    out: &mut K,
) -> Result<Status, ModeError>
    requires { length names.now ≤ 16 }
    ensures goes { ShelfGoes (H.held shelf.old) (H.held shelf.new) (H.faults shelf.old) (H.faults shelf.new)
        (H.most shelf.old) (H.most shelf.new) }
    ensures ok { IfOk result (λ status. IsAnswered (Some (Faults (map string_bytes names.now)))
        (shelf_run (H.held shelf.old) (H.faults shelf.old) (H.faults shelf.new) (H.most shelf.new))
        (sink_run (K.taken out.old) (K.taken out.new) (K.faults out.old) (K.faults out.new)) status) }
    ensures stop { IfErr result (λ stop. Stops (Some (Faults (map string_bytes names.now)))
        (shelf_run (H.held shelf.old) (H.faults shelf.old) (H.faults shelf.new) (H.most shelf.new))
        (sink_run (K.taken out.old) (K.taken out.new) (K.faults out.old) (K.faults out.new)) stop) }
{
    let sources = load_all(alloc, names, shelf)?;
    let reported = judge(alloc, names, &sources)?;
    put_all(out, reported.text.as_bytes())?;
    Ok(reported.status)
}

// The answer on the contents of the files.
fn judge(alloc: Global, names: &[String], sources: &Sources) -> Result<Told, Refusal>
    ensures ok { IfOk result
        (λ reported. Answer (Some (Faults (map string_bytes names.now))) (texts_of sources.now) reported.status
        (string_bytes reported.text) []) }
    ensures refusal { IfErr result
        (λ refusal. RefusesForm (Faults (map string_bytes names.now)) (texts_of sources.now) refusal) }
{
    match scj_check::check(alloc, sources)? {
        Verdict::Accepted(checked) => {
            let faults = faults_in(alloc, checked)?;
            Ok(listed(alloc, names, &faults)?)
        }
        Verdict::Refused(found) => Ok(refused(alloc, names, found.items())?),
    }
}

// The faults of an accepted program, which is dropped here.
fn faults_in(alloc: Global, checked: Checked) -> Result<Vec<CertainFault>, Memory>
    ensures { IfOk result (λ faults. IsFaultReport (code_of checked.program) faults.items) }
{
    certain_faults(alloc, &checked)
}

fn listed(alloc: Global, names: &[String], faults: &[CertainFault]) -> Result<Told, AllocError>
    ensures { IfOk result
        (λ reported. (reported.status ≡ Done) ×
        (string_bytes reported.text ≡ fault_list (map string_bytes names.now) faults.now)) }
{
    let text = fault_list(alloc, names, faults)?;
    Ok(Told {
        status: Status::Done,
        text,
    })
}
