//! The mode that runs a program by a plan.

ghost use Rattle.std.specs.Prelude.{◌≡◌, [], ◌≤◌, length, map, string_bytes, IfOk, IfErr, Some};
ghost use Rattle.scj_io.specs.Loads.{ShelfGoes, shelf_run};
ghost use Rattle.scj_io.specs.Puts.{sink_run};
ghost use Rattle.command_line.specs.Job.{Run};
ghost use Rattle.scj_cli.specs.Modes.{IsAnswered, Stops};

use crate::loads::load_run;
use crate::refusals::ModeError;
use crate::runnables::{Judged, judge};
use scj_base::Status;
use scj_io::{Shelf, Sink, put_all};
use std::alloc::Global;

/// Runs the program of the files of these names by the plan of this name, and puts its trace on `out` line by line; or
/// puts the report.
pub fn run<H: Shelf, K: Sink>(
    alloc: Global,
    plan: &str,
    names: &[String],
    shelf: &mut H,
    out: &mut K,
) -> Result<Status, ModeError>
    requires { length names.now ≤ 16 }
    ensures goes { ShelfGoes (H.held shelf.old) (H.held shelf.new) (H.faults shelf.old) (H.faults shelf.new)
        (H.most shelf.old) (H.most shelf.new) }
    ensures ok { IfOk result (λ status. IsAnswered (Some (Run plan.now (map string_bytes names.now)))
        (shelf_run (H.held shelf.old) (H.faults shelf.old) (H.faults shelf.new) (H.most shelf.new))
        (sink_run (K.taken out.old) (K.taken out.new) (K.faults out.old) (K.faults out.new)) status) }
    ensures stop { IfErr result (λ stop. Stops (Some (Run plan.now (map string_bytes names.now)))
        (shelf_run (H.held shelf.old) (H.faults shelf.old) (H.faults shelf.new) (H.most shelf.new))
        (sink_run (K.taken out.old) (K.taken out.new) (K.faults out.old) (K.faults out.new)) stop) }
{
    let files = load_run(alloc, plan, names, shelf)?;
    match judge(alloc, names, &files.sources, &files.plan)? {
        Judged::Reported(text) => {
            put_all(out, text.as_bytes())?;
            Ok(Status::Refused)
        }
        Judged::Ready(runnable) => {
            let status = runnable.run(alloc, out)?;
            Ok(status)
        }
    }
}
