//! The mode that prints a plan as one of version 2.

ghost use Rattle.std.specs.Prelude.{◌≡◌, ℕ, List, [], ◌∷◌, IfOk, IfErr, Some};
ghost use Rattle.scj_base.specs.declared.statuses.Status.TheVariants.{Done};
ghost use Rattle.scj_io.specs.Loads.{ShelfGoes, shelf_run};
ghost use Rattle.scj_io.specs.Puts.{sink_run};
ghost use Rattle.command_line.specs.Job.{Migrate};
ghost use Rattle.scj_cli.specs.Answers.{Answer};
ghost use Rattle.scj_cli.specs.Modes.{IsAnswered, Stops, RefusesForm};

use crate::loads::load_alone;
use crate::plan_refusals::plan_in;
use crate::refusals::{ModeError, Refusal};
use scj_base::Status;
use scj_io::{Shelf, Sink, put_all};
use std::alloc::Global;

/// Puts the plan in the file of this name on `out`, as one of version 2.
pub fn migrate<H: Shelf, K: Sink>(
    alloc: Global,
    plan: &str,
    shelf: &mut H,
    out: &mut K,
) -> Result<Status, ModeError>
    ensures goes { ShelfGoes (H.held shelf.old) (H.held shelf.new) (H.faults shelf.old) (H.faults shelf.new)
        (H.most shelf.old) (H.most shelf.new) }
    ensures ok { IfOk result (λ status. IsAnswered (Some (Migrate plan.now))
        (shelf_run (H.held shelf.old) (H.faults shelf.old) (H.faults shelf.new) (H.most shelf.new))
        (sink_run (K.taken out.old) (K.taken out.new) (K.faults out.old) (K.faults out.new)) status) }
    ensures stop { IfErr result (λ stop. Stops (Some (Migrate plan.now))
        (shelf_run (H.held shelf.old) (H.faults shelf.old) (H.faults shelf.new) (H.most shelf.new))
        (sink_run (K.taken out.old) (K.taken out.new) (K.faults out.old) (K.faults out.new)) stop) }
{
    let text = load_alone(alloc, plan, shelf)?;
    let again = migrated(alloc, &text)?;
    put_all(out, &again)?;
    Ok(Status::Done)
}

// The plan that a text is, as a text of version 2.
fn migrated(alloc: Global, text: &[u8]) -> Result<Vec<u8>, Refusal>
    ensures ok { IfOk result
        (λ again. (plan : List ℕ) → Answer (Some (Migrate plan)) (text.now ∷ []) Done again.items []) }
    ensures refusal { IfErr result (λ refusal. (plan : List ℕ) → RefusesForm (Migrate plan) (text.now ∷ []) refusal) }
{
    let plan = plan_in(alloc, text)?;
    Ok(run_plan::migrate(alloc, &plan)?)
}
