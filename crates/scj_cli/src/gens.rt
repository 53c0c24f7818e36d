//! The mode that generates a program and runs it.

ghost use Rattle.std.specs.Prelude.{◌≡◌, [], ◌∷◌, ◌≤◌, length, map, string_bytes, codes, IfOk, IfErr, Some};
ghost use Rattle.scj_io.specs.Loads.{ShelfRun};
ghost use Rattle.scj_io.specs.Puts.{sink_run};
ghost use Rattle.source_gen.specs.Generated.{source_of, plan_of};
ghost use Rattle.command_line.specs.Job.{Gen};
ghost use Rattle.command_line.specs.Sizes.{IsSize};
ghost use Rattle.scj_cli.specs.Answers.{Answer};
ghost use Rattle.scj_cli.specs.Modes.{IsAnswered, Stops, RefusesForm};
ghost use Rattle.scj_cli.specs.Outcomes.{generated_names, run_status, gen_out, Ran};

use crate::kept_traces::KeptTrace;
use crate::refusals::{ModeError, Refusal};
use crate::runnables::{Judged, Runnable, judge};
use crate::summaries::summary;
use scj_base::{Memory, Status};
use scj_check::Sources;
use scj_io::{Sink, put_all};
use source_gen::{GenError, generate};
use std::alloc::Global;

/// Generates the program of a size, runs it by its plan, and puts the summary of its trace on `out`; or puts the
/// report.
pub fn run_generated<K: Sink>(alloc: Global, size: u32, out: &mut K) -> Result<Status, ModeError>
    requires { IsSize size }
    ensures ok { IfOk result (λ status. (shelf : ShelfRun) → IsAnswered (Some (Gen size)) shelf
        (sink_run (K.taken out.old) (K.taken out.new) (K.faults out.old) (K.faults out.new)) status) }
    ensures stop { IfErr result (λ stop. (shelf : ShelfRun) → Stops (Some (Gen size)) shelf
        (sink_run (K.taken out.old) (K.taken out.new) (K.faults out.old) (K.faults out.new)) stop) }
{
    let reported = reported_of(alloc, size)?;
    put_all(out, &reported.text)?;
    Ok(reported.status)
}

// What a run of a generated program answers.
#[derive(Drop)]
struct Told {
    status: Status,
    text: Vec<u8>,
}

// The answer on the generated program of a size.
fn reported_of(alloc: Global, size: u32) -> Result<Told, Refusal>
    requires { IsSize size }
    ensures ok { IfOk result (λ reported. Answer (Some (Gen size)) [] reported.status reported.text.items []) }
    ensures refusal { IfErr result (λ refusal. RefusesForm (Gen size) [] refusal) }
{
    let (source, plan) = texts_of(alloc, size)?;
    let names = generated_names(alloc)?;
    let sources = alone(alloc, source)?;
    match judge(alloc, &names, &sources, &plan)? {
        Judged::Reported(text) => Ok(Told {
            status: Status::Refused,
            text: text.into_bytes(),
        }),
        Judged::Ready(runnable) => Ok(summarized(alloc, size, runnable)?),
    }
}

// The source and the plan of a size.
fn texts_of(alloc: Global, size: u32) -> Result<(Vec<u8>, Vec<u8>), Memory>
    requires { IsSize size }
    ensures source { IfOk result (λ texts. texts.0.items ≡ source_of size) }
    ensures plan { IfOk result (λ texts. texts.1.items ≡ plan_of size) }
    ensures short { IfOk result (λ texts. length texts.0.items ≤ 1048576) }
{
    match generate(alloc, size) {
        Ok(texts) => Ok(texts),
        Err(GenError::Memory) => Err(Memory),
        Err(GenError::Size { .. }) => unreachable!(),
    }
}

// The name of the one file.
fn generated_names(alloc: Global) -> Result<Vec<String>, Memory>
    ensures { IfOk result (λ names. map string_bytes names.items ≡ generated_names) }
{
    let mut names = Vec::new(alloc);
    names.push(String::from_str(alloc, "gen")?)?;
    Ok(names)
}

// The one file with its text.
fn alone(alloc: Global, text: Vec<u8>) -> Result<Sources, Memory>
    requires { length text.items ≤ 1048576 }
    ensures { IfOk result (λ sources. sources ≡ (codes "gen", text.items) ∷ []) }
{
    let name = String::from_str(alloc, "gen")?;
    let mut sources = Sources::new(alloc);
    sources.add(name, text)?;
    Ok(sources)
}

// The summary of the run of the program of a size.
fn summarized(alloc: Global, size: u32, runnable: Runnable) -> Result<Told, Memory>
    requires named { length runnable.checked.program.files ≡ length runnable.files }
    requires names { runnable.files ≡ generated_names }
    ensures status { IfOk result (λ reported. reported.status ≡ run_status (Ran runnable.checked.program runnable.plan)) }
    ensures text { IfOk result
        (λ reported. reported.text.items ≡ gen_out size (Ran runnable.checked.program runnable.plan)) }
{
    let mut kept = KeptTrace::new(alloc);
    match runnable.run(alloc, &mut kept) {
        Ok(status) => {
            let text = summary(alloc, size, kept.text())?;
            Ok(Told { status, text })
        }
        Err(_) => Err(Memory),
    }
}
