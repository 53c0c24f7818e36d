//! The audit of a trace.

ghost use Rattle.std.specs.Prelude.{◌≡◌, ◌==◌, ◌&&◌, IfOk, if◌then◌else◌, length};
ghost use Rattle.trace_audit.specs.declared.answers.Audit.TheVariants.{No, Yes};
ghost use Rattle.trace_audit.specs.Audits.{audit_of};

use crate::answers::Audit;
use crate::parts::parted;
use crate::planned::AuditPlan;
use crate::reading::line_of;
use crate::replays::Replay;
use run_plan::Plan;
use std::alloc::{AllocError, Global};

/// The answer behind the last line feed: whether nothing stands there, and the last line ended the trace.
fn ended(rest: &[u8], is_over: bool, number: u64) -> Audit
    ensures { result ≡ (if (length rest.now == 0) && is_over then Yes else No number) }
{
    if rest.is_empty() && is_over {
        Audit::Yes
    } else {
        Audit::No { line: number }
    }
}

/// Audits a trace by the plan of its run.
///
/// # Errors
///
/// `AllocError` may come at any text.
pub fn audit(alloc: Global, trace: &[u8], plan: &Plan) -> Result<Audit, AllocError>
    ensures { IfOk result (λ answer. answer ≡ audit_of plan.now trace.now) }
{
    let plan = AuditPlan::new(alloc, plan)?;
    let mut replay = Replay::new(alloc);
    let mut rest = trace;
    let mut number: u64 = 1;
    while let Some((bytes, others)) = parted(b'\n', rest) {
        let Some(line) = line_of(bytes) else {
            return Ok(Audit::No { line: number });
        };
        if !replay.passes(&plan, &line) {
            return Ok(Audit::No { line: number });
        }
        replay.take(&line)?;
        rest = others;
        number += 1;
    }
    Ok(ended(rest, replay.is_over(), number))
}
