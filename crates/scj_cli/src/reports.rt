//! The text of a report.

ghost use Rattle.std.specs.Prelude.{◌≡◌, [], ℕ, List, map, string_bytes, slice_index_or, IfOk};
ghost use Rattle.scj_cli.specs.Reports.{report_text, finding_line, finding_lines, count_line};

use scj_base::Found;
use std::alloc::{AllocError, Global};

/// The lines of the findings, in their order, and the line with their number.
#[tactic(auto, unfolding(crate::specs::Reports::report_text))]
pub fn report(alloc: Global, names: &[String], found: &[Found]) -> Result<String, AllocError>
    ensures { IfOk result (λ text. string_bytes text ≡ report_text (map string_bytes names.now) found.now) }
{
    let mut text = lines(alloc, names, found)?;
    let count = found.len();
    let end = format!(in alloc; "refused {count}\n")?;
    text.push_str(&end)?;
    Ok(text)
}

fn lines(alloc: Global, names: &[String], found: &[Found]) -> Result<String, AllocError>
    ensures { IfOk result (λ text. string_bytes text ≡ finding_lines (map string_bytes names.now) found.now) }
{
    let mut text = String::new(alloc);
    for finding in found {
        let line = finding_text(alloc, names, *finding)?;
        text.push_str(&line)?;
    }
    Ok(text)
}

fn finding_text(alloc: Global, names: &[String], found: Found) -> Result<String, AllocError>
    ensures { IfOk result (λ line. string_bytes line ≡ finding_line (map string_bytes names.now) found) }
{
    let file = file_name(names, found.pos.file);
    let line = found.pos.line;
    let col = found.pos.col;
    let rule = found.rule.name();
    let text = found.rule.text();
    format!(in alloc; "{file}:{line}:{col}: {rule} {text}\n")
}

/// The name of the file of this number.
pub fn file_name(names: &[String], file: u8) -> &str
    ensures { result.now ≡ slice_index_or (map string_bytes names.now) file [] }
{
    match names.get(file as usize) {
        Some(name) => name.as_str(),
        None => "",
    }
}
