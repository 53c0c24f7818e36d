//! The mode that bounds the responses of declared rows.

ghost use Rattle.std.specs.Prelude.{◌≡◌, ℕ, List, [], ◌∷◌, string_bytes, IfOk, IfErr, Some};
ghost use Rattle.scj_base.specs.declared.statuses.Status.TheVariants.{Done};
ghost use Rattle.scj_io.specs.Loads.{ShelfGoes, shelf_run};
ghost use Rattle.scj_io.specs.Puts.{sink_run};
ghost use Rattle.command_line.specs.Job.{Respond};
ghost use Rattle.scj_cli.specs.Answers.{Answer};
ghost use Rattle.scj_cli.specs.Modes.{IsAnswered, Stops, RefusesForm};

use crate::loads::load_alone;
use crate::plan_refusals::declared_in;
use crate::refusals::{ModeError, Refusal};
use response_times::response_text;
use scj_base::Status;
use scj_io::{Shelf, Sink, put_all};
use std::alloc::Global;

/// Bounds the responses of the rows in the file of this name, and puts a line a row on `out`.
pub fn respond<H: Shelf, K: Sink>(
    alloc: Global,
    plan: &str,
    shelf: &mut H,
    out: &mut K,
) -> Result<Status, ModeError>
    ensures goes { ShelfGoes (H.held shelf.old) (H.held shelf.new) (H.faults shelf.old) (H.faults shelf.new)
        (H.most shelf.old) (H.most shelf.new) }
    ensures ok { IfOk result (λ status. IsAnswered (Some (Respond plan.now))
        (shelf_run (H.held shelf.old) (H.faults shelf.old) (H.faults shelf.new) (H.most shelf.new))
        (sink_run (K.taken out.old) (K.taken out.new) (K.faults out.old) (K.faults out.new)) status) }
    ensures stop { IfErr result (λ stop. Stops (Some (Respond plan.now))
        (shelf_run (H.held shelf.old) (H.faults shelf.old) (H.faults shelf.new) (H.most shelf.new))
        (sink_run (K.taken out.old) (K.taken out.new) (K.faults out.old) (K.faults out.new)) stop) }
{
    let text = load_alone(alloc, plan, shelf)?;
    let lines = bounded(alloc, &text)?;
    put_all(out, lines.as_bytes())?;
    Ok(Status::Done)
}

// The lines of the rows that a text declares.
fn bounded(alloc: Global, text: &[u8]) -> Result<String, Refusal>
    ensures ok { IfOk result
        (λ lines. (plan : List ℕ) → Answer (Some (Respond plan)) (text.now ∷ []) Done (string_bytes lines) []) }
    ensures refusal { IfErr result (λ refusal. (plan : List ℕ) → RefusesForm (Respond plan) (text.now ∷ []) refusal) }
{
    let file = declared_in(alloc, text)?;
    let rows = file.rows.0.as_slice();
    let answer = response_times::respond(alloc, rows)?;
    let lines = response_text(alloc, rows, &answer)?;
    Ok(lines)
}
