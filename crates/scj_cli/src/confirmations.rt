//! The mode that confirms claimed bounds.

ghost use Rattle.std.specs.Prelude.{◌≡◌, ℕ, List, [], ◌∷◌, string_bytes, IfOk, IfErr, Some};
ghost use Rattle.scj_base.specs.declared.statuses.Status.TheVariants.{Done};
ghost use Rattle.scj_io.specs.Loads.{ShelfGoes, shelf_run};
ghost use Rattle.scj_io.specs.Puts.{sink_run};
ghost use Rattle.command_line.specs.Job.{Confirm};
ghost use Rattle.scj_cli.specs.Answers.{Answer};
ghost use Rattle.scj_cli.specs.Modes.{IsAnswered, Stops, RefusesForm};

use crate::loads::load_alone;
use crate::plan_refusals::declared_in;
use crate::refusals::{ModeError, Refusal};
use response_times::check_response;
use scj_base::Status;
use scj_io::{Shelf, Sink, put_all};
use std::alloc::Global;

/// Confirms the bounds that the file of this name claims for its rows, and puts `yes` or `no` on `out`.
pub fn confirm<H: Shelf, K: Sink>(
    alloc: Global,
    plan: &str,
    shelf: &mut H,
    out: &mut K,
) -> Result<Status, ModeError>
    ensures goes { ShelfGoes (H.held shelf.old) (H.held shelf.new) (H.faults shelf.old) (H.faults shelf.new)
        (H.most shelf.old) (H.most shelf.new) }
    ensures ok { IfOk result (λ status. IsAnswered (Some (Confirm plan.now))
        (shelf_run (H.held shelf.old) (H.faults shelf.old) (H.faults shelf.new) (H.most shelf.new))
        (sink_run (K.taken out.old) (K.taken out.new) (K.faults out.old) (K.faults out.new)) status) }
    ensures stop { IfErr result (λ stop. Stops (Some (Confirm plan.now))
        (shelf_run (H.held shelf.old) (H.faults shelf.old) (H.faults shelf.new) (H.most shelf.new))
        (sink_run (K.taken out.old) (K.taken out.new) (K.faults out.old) (K.faults out.new)) stop) }
{
    let text = load_alone(alloc, plan, shelf)?;
    let line = confirmed(alloc, &text)?;
    put_all(out, line.as_bytes())?;
    Ok(Status::Done)
}

// Whether the bounds that a text claims are those of its rows.
fn confirmed(alloc: Global, text: &[u8]) -> Result<&'static str, Refusal>
    ensures ok { IfOk result
        (λ line. (plan : List ℕ) → Answer (Some (Confirm plan)) (text.now ∷ []) Done line.now []) }
    ensures refusal { IfErr result (λ refusal. (plan : List ℕ) → RefusesForm (Confirm plan) (text.now ∷ []) refusal) }
{
    let file = declared_in(alloc, text)?;
    if check_response(&file.rows.0, &file.claimed.0) {
        Ok("yes\n")
    } else {
        Ok("no\n")
    }
}
