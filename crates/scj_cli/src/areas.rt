//! The mode that tells what memory areas a run needs.

ghost use Rattle.std.specs.Prelude.{◌≡◌, ℕ, List, [], ◌∷◌, ◌++◌, ◌≤◌, length, map, string_bytes, IfOk, IfErr, Some};
ghost use Rattle.scj_io.specs.Loads.{ShelfGoes, shelf_run};
ghost use Rattle.scj_io.specs.Puts.{sink_run};
ghost use Rattle.scj_check.specs.Texts.{texts_of};
ghost use Rattle.command_line.specs.Job.{Areas};
ghost use Rattle.plain_machine.specs.AreaTexts.{areas_text};
ghost use Rattle.scj_cli.specs.Answers.{Answer};
ghost use Rattle.scj_cli.specs.Modes.{IsAnswered, Stops, RefusesForm};
ghost use Rattle.scj_cli.specs.Outcomes.{run_status, Ran};

use crate::kept_traces::KeptTrace;
use crate::loads::load_run;
use crate::refusals::{ModeError, Refusal};
use crate::runnables::{Judged, Runnable, judge, status_of};
use scj_base::{Memory, Status};
use scj_check::Sources;
use scj_io::{Shelf, Sink, put_all};
use std::alloc::Global;

/// Runs the program of the files of these names by the plan of this name, and puts what memory areas the run needs on
/// `out`; or puts the report.
pub fn areas<H: Shelf, K: Sink>(
    alloc: Global,
    plan: &str,
    names: &[String],
    shelf: &mut H,
    out: &mut K,
) -> Result<Status, ModeError>
    requires { length names.now ≤ 16 }
    ensures goes { ShelfGoes (H.held shelf.old) (H.held shelf.new) (H.faults shelf.old) (H.faults shelf.new)
        (H.most shelf.old) (H.most shelf.new) }
    ensures ok { IfOk result (λ status. IsAnswered (Some (Areas plan.now (map string_bytes names.now)))
        (shelf_run (H.held shelf.old) (H.faults shelf.old) (H.faults shelf.new) (H.most shelf.new))
        (sink_run (K.taken out.old) (K.taken out.new) (K.faults out.old) (K.faults out.new)) status) }
    ensures stop { IfErr result (λ stop. Stops (Some (Areas plan.now (map string_bytes names.now)))
        (shelf_run (H.held shelf.old) (H.faults shelf.old) (H.faults shelf.new) (H.most shelf.new))
        (sink_run (K.taken out.old) (K.taken out.new) (K.faults out.old) (K.faults out.new)) stop) }
{
    let files = load_run(alloc, plan, names, shelf)?;
    let reported = reported_of(alloc, names, &files.sources, &files.plan)?;
    put_all(out, &reported.text)?;
    Ok(reported.status)
}

// What a run that tells its memory areas answers.
#[derive(Drop)]
struct Told {
    status: Status,
    text: Vec<u8>,
}

// The answer on sources of these names and the text of a plan.
fn reported_of(
    alloc: Global,
    names: &[String],
    sources: &Sources,
    plan_text: &[u8],
) -> Result<Told, Refusal>
    requires few { length names.now ≤ 16 }
    requires named { length sources.now ≡ length names.now }
    ensures ok { IfOk result
        (λ reported. (plan : List ℕ) → Answer (Some (Areas plan (map string_bytes names.now)))
        (texts_of sources.now ++ plan_text.now ∷ []) reported.status reported.text.items []) }
    ensures refusal { IfErr result
        (λ refusal. (plan : List ℕ) → RefusesForm (Areas plan (map string_bytes names.now))
        (texts_of sources.now ++ plan_text.now ∷ []) refusal) }
{
    match judge(alloc, names, sources, plan_text)? {
        Judged::Reported(text) => Ok(Told {
            status: Status::Refused,
            text: text.into_bytes(),
        }),
        Judged::Ready(runnable) => Ok(needed(alloc, runnable)?),
    }
}

// What the memory areas of a run need.
fn needed(alloc: Global, runnable: Runnable) -> Result<Told, Memory>
    requires named { length runnable.checked.program.files ≡ length runnable.files }
    ensures status { IfOk result (λ reported. reported.status ≡ run_status (Ran runnable.checked.program runnable.plan)) }
    ensures text { IfOk result
        (λ reported. reported.text.items ≡ areas_text runnable.checked.program runnable.plan runnable.files) }
{
    let mut kept = KeptTrace::new(alloc);
    match plain_machine::run_areas(
        alloc,
        &runnable.checked,
        &runnable.files,
        &runnable.plan,
        &mut kept,
    ) {
        Ok(end) => {
            let mut text = Vec::new(alloc);
            text.extend_from_slice(kept.text())?;
            Ok(Told {
                status: status_of(end),
                text,
            })
        }
        Err(_) => Err(Memory),
    }
}
