//! The mode that audits a trace.

ghost use Rattle.std.specs.Prelude.{◌≡◌, ℕ, List, [], ◌∷◌, string_bytes, IfOk, IfErr, Some};
ghost use Rattle.scj_base.specs.declared.statuses.Status.TheVariants.{Done};
ghost use Rattle.scj_io.specs.Loads.{ShelfGoes, shelf_run};
ghost use Rattle.scj_io.specs.Puts.{sink_run};
ghost use Rattle.command_line.specs.Job.{Audit as AuditJob};
ghost use Rattle.scj_cli.specs.Answers.{Answer};
ghost use Rattle.scj_cli.specs.Audits.{audit_line};
ghost use Rattle.scj_cli.specs.Modes.{IsAnswered, Stops, RefusesForm};

use crate::loads::{AuditFiles, load_audit};
use crate::plan_refusals::plan_in;
use crate::refusals::{ModeError, Refusal};
use scj_base::Status;
use scj_io::{Shelf, Sink, put_all};
use std::alloc::{AllocError, Global};
use trace_audit::Audit;

/// Audits the trace in the file of this name by the plan in the file of its name, and puts `yes` or the first line that
/// doesn't pass on `out`.
pub fn audit<H: Shelf, K: Sink>(
    alloc: Global,
    plan: &str,
    trace: &str,
    shelf: &mut H,
    out: &mut K,
) -> Result<Status, ModeError>
    ensures goes { ShelfGoes (H.held shelf.old) (H.held shelf.new) (H.faults shelf.old) (H.faults shelf.new)
        (H.most shelf.old) (H.most shelf.new) }
    ensures ok { IfOk result (λ status. IsAnswered (Some (AuditJob plan.now trace.now))
        (shelf_run (H.held shelf.old) (H.faults shelf.old) (H.faults shelf.new) (H.most shelf.new))
        (sink_run (K.taken out.old) (K.taken out.new) (K.faults out.old) (K.faults out.new)) status) }
    ensures stop { IfErr result (λ stop. Stops (Some (AuditJob plan.now trace.now))
        (shelf_run (H.held shelf.old) (H.faults shelf.old) (H.faults shelf.new) (H.most shelf.new))
        (sink_run (K.taken out.old) (K.taken out.new) (K.faults out.old) (K.faults out.new)) stop) }
{
    let files = load_audit(alloc, plan, trace, shelf)?;
    let line = audited(alloc, &files.plan, &files.trace)?;
    put_all(out, line.as_bytes())?;
    Ok(Status::Done)
}

// The answer on the texts of a plan and of a trace.
fn audited(alloc: Global, plan: &[u8], trace: &[u8]) -> Result<String, Refusal>
    ensures ok { IfOk result
        (λ line. (plan_name trace_name : List ℕ) →
        Answer (Some (AuditJob plan_name trace_name)) (trace.now ∷ plan.now ∷ []) Done (string_bytes line) []) }
    ensures refusal { IfErr result
        (λ refusal. (plan_name trace_name : List ℕ) →
        RefusesForm (AuditJob plan_name trace_name) (trace.now ∷ plan.now ∷ []) refusal) }
{
    let plan = plan_in(alloc, plan)?;
    let audit = trace_audit::audit(alloc, trace, &plan)?;
    let line = line_of(alloc, audit)?;
    Ok(line)
}

#[tactic(auto, unfolding(crate::specs::Audits::audit_line))]
fn line_of(alloc: Global, audit: Audit) -> Result<String, AllocError>
    ensures { IfOk result (λ line. string_bytes line ≡ audit_line audit) }
{
    match audit {
        Audit::Yes => String::from_str(alloc, "yes\n"),
        Audit::No { line } => format!(in alloc; "no {line}\n"),
    }
}
