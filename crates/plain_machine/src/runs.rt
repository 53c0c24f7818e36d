//! Whole runs.

ghost use Rattle.std.specs.Prelude.{◌≡◌, length, true, IfOk, IfErr};
ghost use Rattle.scj_io.specs.Puts.{sink_run};
ghost use Rattle.plain_machine.specs.Runs.{RunsTo, BreaksOff};

use crate::machines::Machine;
use crate::steps::Progress;
use class_rows::ClassTable;
use object_layout::Layout;
use op_list::{Code, OpList};
use private_scopes::private_scopes;
use run_plan::Plan;
use scj_base::{Failed, Files, Memory};
use scj_io::Sink;
use scj_rules::Checked;
use std::alloc::Global;
use unit_steps::Setting;

/// How a run ends.
#[derive(Clone, Copy, Debug, PartialEq, Eq)]
pub enum RunEnd {
    /// The units of the plan are spent.
    Stopped,
    /// There is no further mission.
    Done,
    /// The sequencer met a fault.
    Halted,
}

/// Why a run breaks off.
#[derive(Clone, Copy, Debug, PartialEq, Eq)]
pub enum RunError {
    /// There was no memory for a growth.
    Memory,
    /// A put failed.
    Failed,
}

impl From<Memory> for RunError {
    ghost use Rattle.plain_machine.specs.declared.runs.RunError.TheVariants as stop;

    ghost from_gives = { λ _ e. e ≡ stop.Memory };

    fn from(_error: Memory) -> RunError {
        RunError::Memory
    }
}

impl From<Failed> for RunError {
    ghost use Rattle.plain_machine.specs.declared.runs.RunError.TheVariants as stop;

    ghost from_gives = { λ _ e. e ≡ stop.Failed };

    fn from(_error: Failed) -> RunError {
        RunError::Failed
    }
}

/// Runs a machine from its first unit to its end.
fn run_to_end<K: Sink>(
    alloc: Global,
    machine: &mut Machine<'_>,
    out: &mut K,
) -> Result<RunEnd, RunError>
    requires live { machine.old.is_live ≡ true }
    requires first { machine.old.spent ≡ 0 }
    ensures ok { IfOk result (λ end. RunsTo machine.old.program machine.old.plan machine.old.names
        (sink_run (K.taken out.old) (K.taken out.new) (K.faults out.old) (K.faults out.new)) end) }
    ensures stop { IfErr result (λ stop. BreaksOff machine.old.program machine.old.plan machine.old.names
        (sink_run (K.taken out.old) (K.taken out.new) (K.faults out.old) (K.faults out.new)) stop) }
{
    loop {
        match machine.step(alloc, out)? {
            Progress::Went => {}
            Progress::Finished(end) => return Ok(end),
        }
    }
}

/// Runs a program by a plan, from the table of its classes.
fn run_by_table<K: Sink>(
    alloc: Global,
    checked: &Checked,
    table: &ClassTable<'_>,
    files: &Files,
    plan: &Plan,
    out: &mut K,
) -> Result<RunEnd, RunError>
    requires table { table.now ≡ checked.now.program }
    requires named { length checked.now.program.files ≡ length files.now }
    ensures ok { IfOk result (λ end. RunsTo checked.now.program plan.now files.now
        (sink_run (K.taken out.old) (K.taken out.new) (K.faults out.old) (K.faults out.new)) end) }
    ensures stop { IfErr result (λ stop. BreaksOff checked.now.program plan.now files.now
        (sink_run (K.taken out.old) (K.taken out.new) (K.faults out.old) (K.faults out.new)) stop) }
{
    let scopes = private_scopes(alloc, table)?;
    let layout = Layout::of(alloc, table, scopes)?;
    let code = OpList::of(alloc, Code::new(checked, &layout))?;
    let setting = Setting {
        code: &code,
        classes: table,
        plan,
    };
    let mut machine = Machine::make(alloc, setting, files)?;
    let end = run_to_end(alloc, &mut machine, out)?;
    Ok(end)
}

/// Runs a program by a plan, and puts each event as a line on a sink, those of a unit when it is over. The names are
/// those of the program's files.
///
/// # Errors
///
/// `Memory` may come in any unit, and `Failed` comes where a put failed; nothing is put after either.
pub fn run<K: Sink>(
    alloc: Global,
    checked: &Checked,
    files: &Files,
    plan: &Plan,
    out: &mut K,
) -> Result<RunEnd, RunError>
    requires named { length checked.now.program.files ≡ length files.now }
    ensures ok { IfOk result (λ end. RunsTo checked.now.program plan.now files.now
        (sink_run (K.taken out.old) (K.taken out.new) (K.faults out.old) (K.faults out.new)) end) }
    ensures stop { IfErr result (λ stop. BreaksOff checked.now.program plan.now files.now
        (sink_run (K.taken out.old) (K.taken out.new) (K.faults out.old) (K.faults out.new)) stop) }
{
    let table = ClassTable::of(alloc, checked.program())?;
    run_by_table(alloc, checked, &table, files, plan, out)
}
