//! The text of a list of faults that are certain.

ghost use Rattle.std.specs.Prelude.{◌≡◌, map, string_bytes, IfOk};
ghost use Rattle.scj_cli.specs.FaultLists.{fault_list, fault_line, fault_lines, fault_count_line};

use crate::reports::file_name;
use certain_faults::CertainFault;
use std::alloc::{AllocError, Global};

/// The lines of the faults, in their order, and the line with their number.
#[tactic(auto, unfolding(crate::specs::FaultLists::fault_list))]
pub fn fault_list(
    alloc: Global,
    names: &[String],
    faults: &[CertainFault],
) -> Result<String, AllocError>
    ensures { IfOk result (λ text. string_bytes text ≡ fault_list (map string_bytes names.now) faults.now) }
{
    let mut text = lines(alloc, names, faults)?;
    let count = faults.len();
    let end = format!(in alloc; "faults {count}\n")?;
    text.push_str(&end)?;
    Ok(text)
}

fn lines(alloc: Global, names: &[String], faults: &[CertainFault]) -> Result<String, AllocError>
    ensures { IfOk result (λ text. string_bytes text ≡ fault_lines (map string_bytes names.now) faults.now) }
{
    let mut text = String::new(alloc);
    for fault in faults {
        let line = fault_text(alloc, names, *fault)?;
        text.push_str(&line)?;
    }
    Ok(text)
}

fn fault_text(alloc: Global, names: &[String], found: CertainFault) -> Result<String, AllocError>
    ensures { IfOk result (λ line. string_bytes line ≡ fault_line (map string_bytes names.now) found) }
{
    let file = file_name(names, found.pos.file);
    let line = found.pos.line;
    let col = found.pos.col;
    let fault = found.fault.text();
    format!(in alloc; "{file}:{line}:{col}: {fault}\n")
}
