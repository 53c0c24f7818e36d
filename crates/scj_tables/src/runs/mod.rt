//! Programs that are run by their plans, and of each run all that it put and its status. Each trace is audited by its
//! plan, and what is answered is printed where it isn't `yes`.
//!
//! The table begins with short forms: a line `$X TEXT` says for which text `$X` stands below, X being a letter or a
//! digit. A case begins with a line `== NAME`. Below it, `-- FILE` begins a file of the case, whose lines follow; the
//! plan's name is `plan.toml`, and the others are the sources in their order. In texts and lines `\xNN` is one byte, by
//! two digits from 0 to 9 and a to f, and a line that ends in `\` has no line feed behind it.

mod cases;
mod short_forms;

use crate::calls::{Ending, parted};
use case_tables::TableError;
use cases::Case;
use short_forms::ShortForms;
use std::alloc::Global;
use std::io::Write;

/// The case that is being read, and the short forms.
#[derive(Drop)]
pub struct Run {
    alloc: Global,
    short_forms: ShortForms,
    case: Option<Case>,
}

impl Run {
    /// A run without cases yet.
    pub fn new(alloc: Global) -> Run {
        Run {
            alloc,
            short_forms: ShortForms::new(alloc),
            case: None,
        }
    }

    /// Takes the next line of the input.
    pub fn take_line<W: Write>(&mut self, line: &str, out: &mut W) -> Result<(), TableError> {
        if let Some(name) = line.strip_prefix("== ") {
            self.run_case(out)?;
            self.case = Some(Case::new(self.alloc, name)?);
            return Ok(());
        }
        let Some(case) = &mut self.case else {
            let text = line.strip_prefix("$").ok_or(TableError::BadLine)?;
            return self.short_forms.add(text);
        };
        if let Some(name) = line.strip_prefix("-- ") {
            return case.begin_file(name);
        }
        let whole = self.short_forms.whole(line)?;
        case.add_line(&whole)
    }

    /// Runs the last case.
    pub fn end<W: Write>(&mut self, out: &mut W) -> Result<(), TableError> {
        self.run_case(out)
    }

    fn run_case<W: Write>(&mut self, out: &mut W) -> Result<(), TableError> {
        if let Some(case) = &mut self.case {
            case.end_file()?;
            print(self.alloc, case, out)?;
        }
        Ok(())
    }
}

// Makes the call of a case, and prints its name, what was put, what was told, and the status.
fn print<W: Write>(alloc: Global, case: &mut Case, to: &mut W) -> Result<(), TableError> {
    let ending = Ending::with_room(alloc, &case.words, &mut case.shelf)?;
    writeln!(to, "== {}", case.name)?;
    to.write_all(ending.out.taken())?;
    to.write_all(ending.err.taken())?;
    writeln!(to, "status {}", ending.status.code())?;
    audit(alloc, case, ending.out.taken(), to)
}

// Audits what the run of a case put, and prints an answer that isn't `yes`.
fn audit<W: Write>(
    alloc: Global,
    case: &mut Case,
    trace: &[u8],
    to: &mut W,
) -> Result<(), TableError> {
    case.shelf.add("trace", trace)?;
    let words = parted(alloc, "audit --plan plan.toml trace")?;
    let ending = Ending::with_room(alloc, &words, &mut case.shelf)?;
    if ending.out.taken() != b"yes\n".as_slice() {
        to.write_all(ending.out.taken())?;
        to.write_all(ending.err.taken())?;
    }
    Ok(())
}
