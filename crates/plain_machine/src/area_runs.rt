//! Runs that tell what areas they need.

ghost use Rattle.std.specs.Prelude.{◌≡◌, length, IfOk, IfErr, Some};
ghost use Rattle.scj_io.specs.Puts.{sink_run};
ghost use Rattle.plain_machine.specs.AreaTexts.{ReportsAreas, areas_text};
ghost use Rattle.plain_machine.specs.Printing.{BreaksOffIn};
ghost use Rattle.plain_machine.specs.Watched.{HasEndedWith, IsWatched};

use crate::area_texts::{end_events, rows_text};
use crate::ends::end_reported;
use crate::laws::keep_laws;
use crate::printers::Printer;
use crate::runs::{RunEnd, RunError};
use crate::under_way::begin;
use crate::watched::{Watched, watch};
use area_tables::AreaTable;
use class_rows::ClassTable;
use object_layout::Layout;
use op_list::{Code, OpList};
use private_scopes::private_scopes;
use run_plan::Plan;
use scj_base::{Files, Memory};
use scj_io::{Sink, put_all};
use scj_model::Event;
use scj_rules::Checked;
use std::alloc::Global;
use unit_steps::Setting;

/// A run before its first unit, of which nothing is noted yet.
fn begin_watched(alloc: Global, setting: Setting<'_>) -> Result<Watched, Memory>
    requires same { setting.classes.now ≡ setting.code.now.program }
    ensures { IfOk result (λ run. IsWatched setting.entry.code.now setting.entry.plan.now run) }
{
    let at = begin(alloc, setting.code, setting.plan)?;
    let table = AreaTable::make(alloc, setting.classes.class_count() as usize)?;
    Ok(Watched {
        at,
        table,
        fault: None,
    })
}

/// Puts what the areas of a run need, and the end of its trace. All texts are made before the first put.
fn put_watched<K: Sink>(
    alloc: Global,
    setting: Setting<'_>,
    printer: &mut Printer<'_>,
    run: &Watched,
    last: Event,
    out: &mut K,
) -> Result<RunEnd, RunError>
    requires same { setting.classes.now ≡ setting.code.now.program }
    requires printed { printer.old.program ≡ setting.code.now.program }
    requires ended { HasEndedWith setting.code.now.program setting.plan.now run.now last }
    ensures ok { IfOk result (λ end. ReportsAreas setting.entry.code.now.program setting.entry.plan.now printer.old.names
        (sink_run (K.taken out.old) (K.taken out.new) (K.faults out.old) (K.faults out.new)) end) }
    ensures stop { IfErr result (λ stop. BreaksOffIn
        (areas_text setting.entry.code.now.program setting.entry.plan.now printer.old.names)
        (sink_run (K.taken out.old) (K.taken out.new) (K.faults out.old) (K.faults out.new)) stop) }
{
    let Some(end) = end_reported(&last) else {
        unreachable!()
    };
    let text = rows_text(alloc, setting, run)?;
    let events = end_events(alloc, end, run.fault, last)?;
    put_all(out, &text)?;
    printer.put_all(out, &events)?;
    Ok(end)
}

/// Runs a program of this setting, and puts what its areas need.
fn run_watched<K: Sink>(
    alloc: Global,
    setting: Setting<'_>,
    files: &Files,
    out: &mut K,
) -> Result<RunEnd, RunError>
    requires same { setting.classes.now ≡ setting.code.now.program }
    requires named { length setting.code.now.program.files ≡ length files.now }
    ensures ok { IfOk result (λ end. ReportsAreas setting.entry.code.now.program setting.entry.plan.now files.now
        (sink_run (K.taken out.old) (K.taken out.new) (K.faults out.old) (K.faults out.new)) end) }
    ensures stop { IfErr result (λ stop. BreaksOffIn
        (areas_text setting.entry.code.now.program setting.entry.plan.now files.now)
        (sink_run (K.taken out.old) (K.taken out.new) (K.faults out.old) (K.faults out.new)) stop) }
{
    keep_laws(setting);
    let mut printer = Printer::make(alloc, setting.code.code().checked(), files)?;
    let mut run = begin_watched(alloc, setting)?;
    let last = watch(alloc, setting, &mut run)?;
    let end = put_watched(alloc, setting, &mut printer, &run, last, out)?;
    Ok(end)
}

/// The same, from the table of the program's classes.
fn run_areas_by_table<K: Sink>(
    alloc: Global,
    checked: &Checked,
    table: &ClassTable<'_>,
    files: &Files,
    plan: &Plan,
    out: &mut K,
) -> Result<RunEnd, RunError>
    requires table { table.now ≡ checked.now.program }
    requires named { length checked.now.program.files ≡ length files.now }
    ensures ok { IfOk result (λ end. ReportsAreas checked.now.program plan.now files.now
        (sink_run (K.taken out.old) (K.taken out.new) (K.faults out.old) (K.faults out.new)) end) }
    ensures stop { IfErr result (λ stop. BreaksOffIn (areas_text checked.now.program plan.now files.now)
        (sink_run (K.taken out.old) (K.taken out.new) (K.faults out.old) (K.faults out.new)) stop) }
{
    let scopes = private_scopes(alloc, table)?;
    let layout = Layout::of(alloc, table, scopes)?;
    let code = OpList::of(alloc, Code::new(checked, &layout))?;
    let setting = Setting {
        code: &code,
        classes: table,
        plan,
    };
    run_watched(alloc, setting, files, out)
}

/// Runs a program by a plan, and puts what areas it needs on a sink: a line for each scope of which an area was opened,
/// one for the store, and the end of the trace. The names are those of the program's files.
///
/// # Errors
///
/// `Memory` comes before anything is put, and `Failed` where a put failed; nothing is put after either.
pub fn run_areas<K: Sink>(
    alloc: Global,
    checked: &Checked,
    files: &Files,
    plan: &Plan,
    out: &mut K,
) -> Result<RunEnd, RunError>
    requires named { length checked.now.program.files ≡ length files.now }
    ensures ok { IfOk result (λ end. ReportsAreas checked.now.program plan.now files.now
        (sink_run (K.taken out.old) (K.taken out.new) (K.faults out.old) (K.faults out.new)) end) }
    ensures stop { IfErr result (λ stop. BreaksOffIn (areas_text checked.now.program plan.now files.now)
        (sink_run (K.taken out.old) (K.taken out.new) (K.faults out.old) (K.faults out.new)) stop) }
{
    let table = ClassTable::of(alloc, checked.program())?;
    run_areas_by_table(alloc, checked, &table, files, plan, out)
}
