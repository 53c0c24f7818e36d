//! What is judged before a run, and the run.

ghost use Rattle.std.specs.Prelude.{◌≡◌, ◌≤◌, length, map, string_bytes, IfOk, IfErr, Some};
ghost use Rattle.scj_io.specs.Puts.{sink_run};
ghost use Rattle.scj_check.specs.Texts.{texts_of};
ghost use Rattle.run_plan.specs.PlanOf.{meaning_of_text, plan};
ghost use Rattle.scj_cli.specs.Outcomes.{status_of_end};
ghost use Rattle.scj_cli.specs.Judgements.{HasRun, IsJudged, RefusesPlan, RefusesRun, StopsRun};

use crate::plan_refusals::plan_in;
use crate::refusals::{ModeError, Refusal};
use crate::reports::report;
use plain_machine::{RunEnd, RunError};
use run_plan::Plan;
use scj_base::{Files, Memory, Status};
use scj_check::{Sources, Verdict};
use scj_io::Sink;
use scj_rules::Checked;
use std::alloc::Global;

/// What sources and the text of a plan are judged to be.
#[derive(Drop)]
pub enum Judged {
    /// Sources that break rules: the text of their report.
    Reported(String),
    /// An accepted program and a plan.
    Ready(Runnable),
}

/// What runs: an accepted program, the names of its files, and a plan.
#[derive(Drop)]
pub struct Runnable {
    pub checked: Checked,
    pub files: Files,
    pub plan: Plan,
}

/// Judges sources of these names, and then the text of a plan.
pub fn judge(
    alloc: Global,
    names: &[String],
    sources: &Sources,
    plan_text: &[u8],
) -> Result<Judged, Refusal>
    requires few { length names.now ≤ 16 }
    requires named { length sources.now ≡ length names.now }
    ensures ok { IfOk result
        (λ judged. IsJudged (map string_bytes names.now) (texts_of sources.now) plan_text.now judged) }
    ensures refusal { IfErr result (λ refusal. RefusesRun (texts_of sources.now) plan_text.now refusal) }
{
    match scj_check::check(alloc, sources)? {
        Verdict::Accepted(checked) => {
            let runnable = with_plan(alloc, names, checked, plan_text)?;
            Ok(Judged::Ready(runnable))
        }
        Verdict::Refused(found) => {
            let text = report(alloc, names, found.items())?;
            Ok(Judged::Reported(text))
        }
    }
}

/// The program with the plan that the text is.
fn with_plan(
    alloc: Global,
    names: &[String],
    checked: Checked,
    plan_text: &[u8],
) -> Result<Runnable, Refusal>
    requires few { length names.now ≤ 16 }
    ensures program { IfOk result (λ runnable. runnable.checked ≡ checked) }
    ensures planned { IfOk result (λ runnable. meaning_of_text plan_text.now ≡ plan runnable.plan) }
    ensures files { IfOk result (λ runnable. runnable.files ≡ map string_bytes names.now) }
    ensures refusal { IfErr result (λ refusal. RefusesPlan (meaning_of_text plan_text.now) refusal) }
{
    let files = files_of(alloc, names)?;
    let plan = plan_in(alloc, plan_text)?;
    Ok(Runnable {
        checked,
        files,
        plan,
    })
}

/// The names of the files of a program.
fn files_of(alloc: Global, names: &[String]) -> Result<Files, Memory>
    requires few { length names.now ≤ 16 }
    ensures { IfOk result (λ files. files ≡ map string_bytes names.now) }
{
    let mut files = Files::new(alloc);
    for name in names {
        files.add(name)?;
    }
    Ok(files)
}

/// The status of a run that ended so.
pub(crate) fn status_of(end: RunEnd) -> Status
    ensures { result ≡ status_of_end (Some end) }
{
    match end {
        RunEnd::Stopped => Status::Done,
        RunEnd::Done => Status::Done,
        RunEnd::Halted => Status::Halted,
    }
}

impl Runnable {
    /// Runs the program and puts its trace line by line. The program is dropped here, at the one exit of a short
    /// function: the proof of a drop of a whole program takes seconds at each exit.
    pub fn run<K: Sink>(self, alloc: Global, out: &mut K) -> Result<Status, ModeError>
        requires named { length self.checked.program.files ≡ length self.files }
        ensures ok { IfOk result (λ status. HasRun self.checked.program self.plan self.files
            (sink_run (K.taken out.old) (K.taken out.new) (K.faults out.old) (K.faults out.new)) status) }
        ensures stop { IfErr result (λ stop. StopsRun self.checked.program self.plan self.files
            (sink_run (K.taken out.old) (K.taken out.new) (K.faults out.old) (K.faults out.new)) stop) }
    {
        self.put_trace(alloc, out)
    }

    /// Runs the program, and puts its trace line by line.
    fn put_trace<K: Sink>(&self, alloc: Global, out: &mut K) -> Result<Status, ModeError>
        requires named { length self.now.checked.program.files ≡ length self.now.files }
        ensures ok { IfOk result (λ status. HasRun self.now.checked.program self.now.plan self.now.files
            (sink_run (K.taken out.old) (K.taken out.new) (K.faults out.old) (K.faults out.new)) status) }
        ensures stop { IfErr result (λ stop. StopsRun self.now.checked.program self.now.plan self.now.files
            (sink_run (K.taken out.old) (K.taken out.new) (K.faults out.old) (K.faults out.new)) stop) }
    {
        match plain_machine::run(alloc, &self.checked, &self.files, &self.plan, out) {
            Ok(end) => Ok(status_of(end)),
            Err(RunError::Memory) => Err(ModeError::Told(Refusal::OutOfMemory)),
            Err(RunError::Failed) => Err(ModeError::Broken),
        }
    }
}
