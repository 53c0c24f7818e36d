//! A machine that runs a program unit by unit.

ghost use Rattle.std.specs.Prelude.{◌≡◌, length, slice_get, true, IfOk, IfErr};
ghost use Rattle.scj_io.specs.Puts.{sink_run};
ghost use Rattle.plain_machine.specs.Machines.{IsBroken, Steps, areas_in, goes_on};
ghost use Rattle.plain_machine.specs.UnderWay.{run_at};

use crate::laws::keep_laws;
use crate::printers::Printer;
use crate::runs::RunError;
use crate::steps::{Progress, one_step};
use crate::under_way::{UnderWay, begin};
use region_heap::Area;
use scj_base::{Files, Memory};
use scj_io::Sink;
use std::alloc::Global;
use std::marker::Model;
use unit_steps::Setting;

/// A machine that runs an accepted program by a plan, and puts what happens on a sink, unit by unit. It is live until
/// its run has ended or broken off.
#[derive(Drop)]
pub struct Machine<'a> {
    setting: Setting<'a>,
    printer: Printer<'a>,
    at: UnderWay,
    is_live: bool,
}

impl<'a> Model for Machine<'a> {
    ghost use Rattle.plain_machine.specs.Machines.{IsMachine, MachineSeen, machine_seen};

    ghost Value = { MachineSeen };

    ghost view = { λ a. machine_seen a.setting.code.now.program a.setting.plan.now a.printer a.at a.is_live };

    ghost invariant = { λ a. IsMachine a.setting.code.now a.setting.classes.now a.setting.plan.now a.printer a.at
        a.is_live };
}

/// Whether there may be a further step.
fn goes_on(progress: Progress) -> bool
    ensures { result ≡ goes_on progress }
{
    match progress {
        Progress::Went => true,
        Progress::Finished(_) => false,
    }
}

impl<'a> Machine<'a> {
    /// A machine before the first unit of a run. The names are those of the program's files.
    pub fn make(
        alloc: Global,
        setting: Setting<'a>,
        files: &'a Files,
    ) -> Result<Machine<'a>, Memory>
        requires same { setting.classes.now ≡ setting.code.now.program }
        requires named { length setting.code.now.program.files ≡ length files.now }
        ensures { IfOk result (λ machine. machine ≡ record {
          program = setting.entry.code.now.program;
          names = files.now;
          plan = setting.entry.plan.now;
          spent = 0;
          is_live = true;
        }) }
    {
        let checked = setting.code.code().checked();
        keep_laws(setting);
        let printer = Printer::make(alloc, checked, files)?;
        let at = begin(alloc, setting.code, setting.plan)?;
        Ok(Machine {
            setting,
            printer,
            at,
            is_live: true,
        })
    }

    /// Whether there may be a further step.
    pub fn is_live(&self) -> bool
        ensures { result ≡ self.now.is_live }
    {
        self.is_live
    }

    /// The open area at a place in the order of opening, if so many are open. Of a machine that isn't live nothing is said.
    pub fn area(&self, i: usize) -> Option<Area>
        ensures { self.now.is_live ≡ true → result
            ≡ slice_get (areas_in (run_at self.now.program self.now.plan self.now.spent).state) i }
    {
        self.at.state.memory.area(i)
    }

    /// Spends one unit, and puts a line for each thing that it tells. Where the units of the plan are spent already, it
    /// puts the line that says so.
    ///
    /// # Errors
    ///
    /// `Memory` where there was no memory for a growth, and `Failed` where a put failed; nothing is put after either.
    pub fn step<K: Sink>(&mut self, alloc: Global, out: &mut K) -> Result<Progress, RunError>
        requires live { self.old.is_live ≡ true }
        ensures ok { IfOk result (λ progress. Steps self.old self.new
            (sink_run (K.taken out.old) (K.taken out.new) (K.faults out.old) (K.faults out.new)) progress) }
        ensures stop { IfErr result (λ stop. IsBroken self.old self.new
            (sink_run (K.taken out.old) (K.taken out.new) (K.faults out.old) (K.faults out.new)) stop) }
    {
        self.is_live = false;
        let setting = self.setting;
        let progress = one_step(alloc, setting, &mut self.printer, &mut self.at, out)?;
        self.is_live = goes_on(progress);
        Ok(progress)
    }
}
