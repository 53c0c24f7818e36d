//! The loads of the files that the words name.

ghost use Rattle.std.specs.Prelude.{◌≡◌, ◌≤◌, ℕ, [], ◌∷◌, ◌++◌, length, map, string_bytes, IfOk, IfErr};
ghost use Rattle.scj_io.specs.Loads.{ShelfGoes, LoadHolds, shelf_run};
ghost use Rattle.scj_check.specs.Texts.{texts_of};
ghost use Rattle.scj_cli.specs.Jobs.{audit_limits, one_limit};
ghost use Rattle.scj_cli.specs.Endings.{MayStand};
ghost use Rattle.scj_cli.specs.Refusals.{RefusesLoad, RefusesLoads};

use crate::refusals::Refusal;
use scj_check::Sources;
use scj_io::{LoadError, Shelf};
use std::alloc::Global;

/// The most bytes of a file.
pub const FILE_LIMIT: usize = 1_048_576;

/// The most bytes of the file of a trace.
pub const TRACE_LIMIT: usize = 67_108_864;

/// The files of these names, loaded in their order up to the first that can't be had.
pub fn load_all<H: Shelf>(
    alloc: Global,
    names: &[String],
    shelf: &mut H,
) -> Result<Sources, Refusal>
    requires { length names.now ≤ 16 }
    ensures goes { ShelfGoes (H.held shelf.old) (H.held shelf.new) (H.faults shelf.old) (H.faults shelf.new)
        (H.most shelf.old) (H.most shelf.new) }
    ensures ok { IfOk result
        (λ sources. MayStand (shelf_run (H.held shelf.old) (H.faults shelf.old) (H.faults shelf.new) (H.most shelf.new))
        one_limit (map string_bytes names.now) (texts_of sources)) }
    ensures refusal { IfErr result
        (λ refusal. RefusesLoads
        (shelf_run (H.held shelf.old) (H.faults shelf.old) (H.faults shelf.new) (H.most shelf.new))
        one_limit (map string_bytes names.now) refusal) }
{
    let mut sources = Sources::new(alloc);
    for name in names {
        let bytes = load(alloc, name, FILE_LIMIT, shelf)?;
        let name = String::from_str(alloc, name)?;
        sources.add(name, bytes)?;
    }
    Ok(sources)
}

/// The one file of this name.
pub fn load_alone<H: Shelf>(alloc: Global, name: &str, shelf: &mut H) -> Result<Vec<u8>, Refusal>
    ensures goes { ShelfGoes (H.held shelf.old) (H.held shelf.new) (H.faults shelf.old) (H.faults shelf.new)
        (H.most shelf.old) (H.most shelf.new) }
    ensures ok { IfOk result
        (λ bytes. MayStand (shelf_run (H.held shelf.old) (H.faults shelf.old) (H.faults shelf.new) (H.most shelf.new))
        one_limit (name.now ∷ []) (bytes.items ∷ [])) }
    ensures refusal { IfErr result
        (λ refusal. RefusesLoads
        (shelf_run (H.held shelf.old) (H.faults shelf.old) (H.faults shelf.new) (H.most shelf.new)) one_limit
        (name.now ∷ []) refusal) }
{
    let text = load(alloc, name, FILE_LIMIT, shelf)?;
    Ok(text)
}

/// The files of a run.
#[derive(Drop)]
pub struct RunFiles {
    /// The sources.
    pub sources: Sources,
    /// The text of the plan.
    pub plan: Vec<u8>,
}

/// The sources of these names, and behind them the plan's file.
pub fn load_run<H: Shelf>(
    alloc: Global,
    plan: &str,
    names: &[String],
    shelf: &mut H,
) -> Result<RunFiles, Refusal>
    requires { length names.now ≤ 16 }
    ensures goes { ShelfGoes (H.held shelf.old) (H.held shelf.new) (H.faults shelf.old) (H.faults shelf.new)
        (H.most shelf.old) (H.most shelf.new) }
    ensures ok { IfOk result
        (λ files. MayStand (shelf_run (H.held shelf.old) (H.faults shelf.old) (H.faults shelf.new) (H.most shelf.new))
        one_limit (map string_bytes names.now ++ plan.now ∷ []) (texts_of files.sources ++ files.plan.items ∷ [])) }
    ensures count { IfOk result (λ files. length files.sources ≡ length names.now) }
    ensures refusal { IfErr result
        (λ refusal. RefusesLoads
        (shelf_run (H.held shelf.old) (H.faults shelf.old) (H.faults shelf.new) (H.most shelf.new))
        one_limit (map string_bytes names.now ++ plan.now ∷ []) refusal) }
{
    let sources = load_all(alloc, names, shelf)?;
    let plan = load(alloc, plan, FILE_LIMIT, shelf)?;
    Ok(RunFiles { sources, plan })
}

/// The files of an audit.
#[derive(Drop)]
pub struct AuditFiles {
    /// The text of the trace.
    pub trace: Vec<u8>,
    /// The text of the plan.
    pub plan: Vec<u8>,
}

/// The trace of this name, and behind it the plan's file.
pub fn load_audit<H: Shelf>(
    alloc: Global,
    plan: &str,
    trace: &str,
    shelf: &mut H,
) -> Result<AuditFiles, Refusal>
    ensures goes { ShelfGoes (H.held shelf.old) (H.held shelf.new) (H.faults shelf.old) (H.faults shelf.new)
        (H.most shelf.old) (H.most shelf.new) }
    ensures ok { IfOk result
        (λ files. MayStand (shelf_run (H.held shelf.old) (H.faults shelf.old) (H.faults shelf.new) (H.most shelf.new))
        (audit_limits plan.now) (trace.now ∷ plan.now ∷ []) (files.trace.items ∷ files.plan.items ∷ [])) }
    ensures refusal { IfErr result
        (λ refusal. RefusesLoads
        (shelf_run (H.held shelf.old) (H.faults shelf.old) (H.faults shelf.new) (H.most shelf.new))
        (audit_limits plan.now) (trace.now ∷ plan.now ∷ []) refusal) }
{
    let limit = limit_of_trace(plan, trace);
    let trace_text = load(alloc, trace, limit, shelf)?;
    let plan_text = load(alloc, plan, FILE_LIMIT, shelf)?;
    Ok(AuditFiles {
        trace: trace_text,
        plan: plan_text,
    })
}

/// The limit of a trace, which is no more than a plan's where the file is the plan's, too.
fn limit_of_trace(plan: &str, trace: &str) -> usize
    ensures { result ≡ audit_limits plan.now trace.now }
{
    if trace == plan {
        FILE_LIMIT
    } else {
        TRACE_LIMIT
    }
}

/// The bytes of a file, within the limit.
fn load<H: Shelf>(
    alloc: Global,
    name: &str,
    limit: usize,
    shelf: &mut H,
) -> Result<Vec<u8>, Refusal>
    ensures goes { ShelfGoes (H.held shelf.old) (H.held shelf.new) (H.faults shelf.old) (H.faults shelf.new)
        (H.most shelf.old) (H.most shelf.new) }
    ensures ok { IfOk result
        (λ bytes. LoadHolds (shelf_run (H.held shelf.old) (H.faults shelf.old) (H.faults shelf.new) (H.most shelf.new))
        name.now limit bytes.items) }
    ensures refusal { IfErr result
        (λ refusal. RefusesLoad
        (shelf_run (H.held shelf.old) (H.faults shelf.old) (H.faults shelf.new) (H.most shelf.new)) limit
        name.now refusal) }
{
    match shelf.load(alloc, name, limit) {
        Ok(bytes) => Ok(bytes),
        Err(LoadError::Failed) => Err(Refusal::Unread(format!(in alloc; "scj: read {name}\n")?)),
        Err(LoadError::TooLong { .. }) => {
            Err(Refusal::Overlong(format!(in alloc; "scj: too long {name}\n")?))
        }
        Err(LoadError::Memory) => Err(Refusal::OutOfMemory),
    }
}
