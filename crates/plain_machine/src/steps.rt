//! Steps of a run.

ghost use Rattle.std.specs.Prelude.{◌≡◌, true, is_some, IfOk, IfErr};
ghost use Rattle.scj_io.specs.Puts.{sink_run, PutWhole};
ghost use Rattle.scj_model.specs.declared.events.Event.TheVariants.{Stopped as StoppedLine};
ghost use Rattle.scj_model.specs.State.{is_over};
ghost use Rattle.scj_model.specs.TraceText.{line_of};
ghost use Rattle.plain_machine.specs.Ends.{end_of};
ghost use Rattle.plain_machine.specs.Lawful.{IsLawful};
ghost use Rattle.plain_machine.specs.Printing.{BreaksOffIn};
ghost use Rattle.plain_machine.specs.Reported.{BreaksOffFrom};
ghost use Rattle.plain_machine.specs.UnderWay.{GoesTo, IsBetween, IsNeverStuck, StepsTo};

use crate::ends::end_of;
use crate::printers::Printer;
use crate::runs::{RunEnd, RunError};
use crate::under_way::{UnderWay, spend};
use scj_io::Sink;
use scj_model::{Event, Phase};
use std::alloc::Global;
use unit_steps::Setting;

/// What a step of a run came to.
#[derive(Clone, Copy, Debug)]
pub enum Progress {
    /// A unit was spent, and the run goes on.
    Went,
    /// The run has ended.
    Finished(RunEnd),
}

/// Whether a run is over.
#[tactic(auto, unfolding(scj_model::specs::State::is_over))]
pub(crate) fn is_over(phase: Phase) -> bool
    ensures { result ≡ is_over phase }
{
    match phase {
        Phase::Over => true,
        _ => false,
    }
}

/// How a run goes on after a unit. Where it is over the last event tells the end.
fn progress_after(at: &UnderWay) -> Progress
    requires { is_over at.now.state.phase ≡ true → is_some (end_of at.now.reported.items) ≡ true }
    ensures { GoesTo at.now result }
{
    if !is_over(at.state.phase) {
        return Progress::Went;
    }
    match end_of(&at.reported) {
        Some(end) => Progress::Finished(end),
        None => unreachable!(),
    }
}

/// Puts the line that the run is stopped.
fn stop<K: Sink>(printer: &mut Printer<'_>, unit: u64, out: &mut K) -> Result<RunEnd, RunError>
    ensures same { printer.new ≡ printer.old }
    ensures end { IfOk result (λ end. end ≡ RunEnd.Stopped) }
    ensures ok { IfOk result (λ _. PutWhole
        (sink_run (K.taken out.old) (K.taken out.new) (K.faults out.old) (K.faults out.new))
        (line_of printer.old.program.nodes printer.old.names (StoppedLine unit))) }
    ensures stop { IfErr result (λ stop. BreaksOffIn
        (line_of printer.old.program.nodes printer.old.names (StoppedLine unit))
        (sink_run (K.taken out.old) (K.taken out.new) (K.faults out.old) (K.faults out.new)) stop) }
{
    printer.put(out, &Event::Stopped { unit })?;
    Ok(RunEnd::Stopped)
}

/// One step of a run: a unit with the lines of what it tells, or the line that the run is stopped.
pub(crate) fn one_step<K: Sink>(
    alloc: Global,
    setting: Setting<'_>,
    printer: &mut Printer<'_>,
    at: &mut UnderWay,
    out: &mut K,
) -> Result<Progress, RunError>
    requires same { setting.classes.now ≡ setting.code.now.program }
    requires printed { printer.old.program ≡ setting.code.now.program }
    requires never { IsNeverStuck setting.code.now.program setting.plan.now }
    requires lawful { IsLawful setting.code.now setting.plan.now }
    requires between { IsBetween setting.code.now setting.plan.now at.old }
    ensures same { printer.new ≡ printer.old }
    ensures ok { IfOk result
        (λ progress. StepsTo setting.entry.code.now setting.entry.plan.now printer.old.names at.old.state.unit at.new
        (sink_run (K.taken out.old) (K.taken out.new) (K.faults out.old) (K.faults out.new)) progress) }
    ensures stop { IfErr result
        (λ stop. BreaksOffFrom setting.entry.code.now.program setting.entry.plan.now printer.old.names at.old.state.unit
        (sink_run (K.taken out.old) (K.taken out.new) (K.faults out.old) (K.faults out.new)) stop) }
{
    let is_spent = at.state.unit == setting.plan.units();
    if is_spent {
        let end = stop(printer, at.state.unit, out)?;
        return Ok(Progress::Finished(end));
    }
    spend(alloc, setting, at)?;
    printer.put_all(out, &at.reported)?;
    Ok(progress_after(at))
}
