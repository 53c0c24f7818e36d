//! Changed sources that are checked, and of each a line: the name, the exit status and the first line that the call put
//! out or told.
//!
//! A case is a line `== NAME` and the lines of its source. A line `~~ NAME FROM TO TEXT` is a case whose source is
//! that of the last `==`, with the text in the place of the bytes from FROM up to TO. In lines and texts `\xNN` is
//! one byte, by two digits from 0 to 9 and a to f, and a line that ends in `\` has no line feed behind it.

mod cases;

use crate::calls::{Ending, parted};
use case_tables::{Edit, TableError};
use cases::Case;
use scj_io::MemShelf;
use std::alloc::Global;
use std::io::Write;

/// The last case of `==`, and whether it waits to be run.
#[derive(Drop)]
pub struct Run {
    alloc: Global,
    base: Case,
    waits: bool,
}

impl Run {
    /// A run without cases yet.
    pub fn new(alloc: Global) -> Result<Run, TableError> {
        let base = Case::new(alloc, "")?;
        Ok(Run {
            alloc,
            base,
            waits: false,
        })
    }

    /// Takes the next line of the input.
    pub fn take_line<W: Write>(&mut self, line: &str, out: &mut W) -> Result<(), TableError> {
        if let Some(name) = line.strip_prefix("== ") {
            self.run_waiting(out)?;
            self.base = Case::new(self.alloc, name)?;
            self.waits = true;
            return Ok(());
        }
        match line.strip_prefix("~~ ") {
            Some(words) => self.run_edited(words, out),
            None => self.base.add_line(line),
        }
    }

    /// Runs what waits at the end of the table.
    pub fn end<W: Write>(&mut self, out: &mut W) -> Result<(), TableError> {
        self.run_waiting(out)
    }

    fn run_waiting<W: Write>(&mut self, out: &mut W) -> Result<(), TableError> {
        if self.waits {
            self.waits = false;
            print(self.alloc, &self.base, out)?;
        }
        Ok(())
    }

    fn run_edited<W: Write>(&mut self, words: &str, out: &mut W) -> Result<(), TableError> {
        self.run_waiting(out)?;
        let (name, words) = words.split_once(' ').ok_or(TableError::BadLine)?;
        let edit = Edit::parse(words)?;
        let case = self.base.edited(self.alloc, name, edit)?;
        print(self.alloc, &case, out)
    }
}

// The line for a case.
fn print<W: Write>(alloc: Global, case: &Case, out: &mut W) -> Result<(), TableError> {
    let call = format!(in alloc; "check {}", case.name)?;
    let mut shelf = MemShelf::new(alloc);
    shelf.add(&case.name, &case.source)?;
    let ending = Ending::with_room(alloc, &parted(alloc, &call)?, &mut shelf)?;
    let code = ending.status.code();
    write!(out, "{} {code} ", case.name)?;
    out.write_all(first_line(&ending))?;
    out.write_all(b"\n")?;
    Ok(())
}

// The first line that was put out, or told where nothing was put out, without its line feed.
fn first_line(ending: &Ending) -> &[u8] {
    let out = ending.out.taken();
    if out.is_empty() {
        return front(ending.err.taken());
    }
    front(out)
}

// The bytes before the first line feed.
fn front(bytes: &[u8]) -> &[u8] {
    match bytes.iter().position(|byte| *byte == b'\n') {
        Some(end) => &bytes[..end],
        None => bytes,
    }
}
