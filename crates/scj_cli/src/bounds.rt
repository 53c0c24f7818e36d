//! The mode that bounds the private memories of handlers.

ghost use Rattle.std.specs.Prelude.{◌≡◌, [], ◌≤◌, length, map, string_bytes, IfOk, IfErr, Some};
ghost use Rattle.scj_io.specs.Loads.{ShelfGoes, shelf_run};
ghost use Rattle.scj_io.specs.Puts.{sink_run};
ghost use Rattle.command_line.specs.Job.{Bounds};
ghost use Rattle.scj_check.specs.Texts.{texts_of};
ghost use Rattle.scj_base.specs.declared.statuses.Status.TheVariants.{Done, Refused};
ghost use Rattle.scj_cli.specs.Answers.{Answer};
ghost use Rattle.scj_cli.specs.BoundLists.{IsBoundList};
ghost use Rattle.scj_cli.specs.Modes.{IsAnswered, Stops, RefusesForm};
ghost use Rattle.scj_cli.specs.Reports.{report_text};

use crate::bound_lists::bound_list;
use crate::loads::load_all;
use crate::refusals::{ModeError, Refusal};
use crate::reports::report;
use class_rows::ClassTable;
use object_layout::Layout;
use private_scopes::private_scopes;
use scj_base::{Found, Memory, Status};
use scj_check::{Sources, Verdict};
use scj_io::{Shelf, Sink, put_all};
use scj_rules::Checked;
use std::alloc::{AllocError, Global};

/// A status, and the bytes on `out`.
#[derive(Drop)]
struct Bounded {
    status: Status,
    text: Vec<u8>,
}

/// Puts what is told of the private memories of the handlers in the files of these names on `out`, or the report.
pub fn bounds<H: Shelf, K: Sink>(
    alloc: Global,
    names: &[String],
    shelf: &mut H,
    out: &mut K,
) -> Result<Status, ModeError>
    requires { length names.now ≤ 16 }
    ensures goes { ShelfGoes (H.held shelf.old) (H.held shelf.new) (H.faults shelf.old) (H.faults shelf.new)
        (H.most shelf.old) (H.most shelf.new) }
    ensures ok { IfOk result (λ status. IsAnswered (Some (Bounds (map string_bytes names.now)))
        (shelf_run (H.held shelf.old) (H.faults shelf.old) (H.faults shelf.new) (H.most shelf.new))
        (sink_run (K.taken out.old) (K.taken out.new) (K.faults out.old) (K.faults out.new)) status) }
    ensures stop { IfErr result (λ stop. Stops (Some (Bounds (map string_bytes names.now)))
        (shelf_run (H.held shelf.old) (H.faults shelf.old) (H.faults shelf.new) (H.most shelf.new))
        (sink_run (K.taken out.old) (K.taken out.new) (K.faults out.old) (K.faults out.new)) stop) }
{
    let sources = load_all(alloc, names, shelf)?;
    let bounded = judge(alloc, names, &sources)?;
    put_all(out, &bounded.text)?;
    Ok(bounded.status)
}

// The answer on the contents of the files.
fn judge(alloc: Global, names: &[String], sources: &Sources) -> Result<Bounded, Refusal>
    ensures ok { IfOk result
        (λ bounded. Answer (Some (Bounds (map string_bytes names.now))) (texts_of sources.now) bounded.status
        bounded.text.items []) }
    ensures refusal { IfErr result
        (λ refusal. RefusesForm (Bounds (map string_bytes names.now)) (texts_of sources.now) refusal) }
{
    match scj_check::check(alloc, sources)? {
        Verdict::Accepted(checked) => Ok(listed(alloc, names, checked)?),
        Verdict::Refused(found) => Ok(reported(alloc, names, found.items())?),
    }
}

// The bounds of an accepted program, which is dropped here.
fn listed(alloc: Global, names: &[String], checked: Checked) -> Result<Bounded, Memory>
    ensures { IfOk result
        (λ bounded. (bounded.status ≡ Done) ×
        IsBoundList checked.program (map string_bytes names.now) bounded.text.items) }
{
    let text = list_of(alloc, names, &checked)?;
    Ok(Bounded {
        status: Status::Done,
        text,
    })
}

fn list_of(alloc: Global, names: &[String], checked: &Checked) -> Result<Vec<u8>, Memory>
    ensures { IfOk result
        (λ text. IsBoundList checked.now.program (map string_bytes names.now) text.items) }
{
    let classes = ClassTable::of(alloc, checked.program())?;
    list_by_classes(alloc, names, checked, &classes)
}

// The same from the table of the classes.
fn list_by_classes(
    alloc: Global,
    names: &[String],
    checked: &Checked,
    classes: &ClassTable<'_>,
) -> Result<Vec<u8>, Memory>
    requires { classes.now ≡ checked.now.program }
    ensures { IfOk result
        (λ text. IsBoundList checked.now.program (map string_bytes names.now) text.items) }
{
    let scopes = private_scopes(alloc, classes)?;
    let layout = Layout::of(alloc, classes, scopes)?;
    let bounds = memory_bounds::bounds(alloc, checked, classes, &layout)?;
    let text = bound_list(alloc, classes, names, &bounds)?;
    Ok(text)
}

// The report on sources of these names.
fn reported(alloc: Global, names: &[String], found: &[Found]) -> Result<Bounded, AllocError>
    ensures { IfOk result
        (λ bounded. (bounded.status ≡ Refused) ×
        (bounded.text.items ≡ report_text (map string_bytes names.now) found.now)) }
{
    let text = report(alloc, names, found)?;
    let text = text.as_bytes().to_vec(alloc)?;
    Ok(Bounded {
        status: Status::Refused,
        text,
    })
}
