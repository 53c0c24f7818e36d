//! Whole calls, and of each all that it put, its status, and what it told.
//!
//! A case begins with a line `== NAME`. Below it, `-- FILE` begins a file of the case, a source or a plan, whose lines
//! follow up to the next line of these kinds; among them `-+ COUNT LINE` is that line so many times. `-< FILE` takes
//! the file of that name from where the program runs; `-* COUNT FILE` is a file of so many blanks. `! load N`, `! out
//! N` and `! err N` make that load or put fail, counted from 1, and `! room N` leaves room for so many bytes on the
//! output. `$ WORDS` is a call, with words parted by single blanks. `~ FROM TO TEXT` checks the last written file
//! alone, with the text in the place of the bytes from FROM up to TO. Lines outside a file and outside these kinds are
//! comments. In files and texts `\xNN` is one byte, by two digits from 0 to 9 and a to f, and a line that ends in `\`
//! has no line feed behind it.

mod cases;

use crate::calls::{Ending, parted};
use case_tables::{Edit, TableError};
use cases::Case;
use scj_io::Shelf;
use std::alloc::Global;
use std::io::Write;

const LONGEST: usize = 1_048_576;

/// The case at which the run stands.
#[derive(Drop)]
pub struct Run {
    alloc: Global,
    case: Case,
}

impl Run {
    /// A run without cases yet.
    pub fn new(alloc: Global) -> Run {
        Run {
            alloc,
            case: Case::new(alloc),
        }
    }

    /// Takes the next line of the input.
    pub fn take_line<S: Shelf, W: Write>(
        &mut self,
        line: &str,
        files: &mut S,
        out: &mut W,
    ) -> Result<(), TableError> {
        match line.split_once(' ') {
            Some(("==", name)) => self.begin_case(name, out),
            Some(("--", name)) => self.case.begin_file(name),
            Some(("-<", name)) => self.take_file(name, files),
            Some(("-*", words)) => self.case.add_blanks(words),
            Some(("-+", words)) => self.case.add_copies(words),
            Some(("!", words)) => self.case.add_fault(words),
            Some(("$", words)) => self.call(words, out),
            Some(("~", words)) => self.change(words, out),
            _ => self.case.add_line(line),
        }
    }

    fn begin_case<W: Write>(&mut self, name: &str, out: &mut W) -> Result<(), TableError> {
        self.case = Case::new(self.alloc);
        writeln!(out, "== {name}")?;
        Ok(())
    }

    fn take_file<S: Shelf>(&mut self, name: &str, files: &mut S) -> Result<(), TableError> {
        self.case.end_file()?;
        let Ok(bytes) = files.load(self.alloc, name, LONGEST) else {
            return Err(TableError::NoFile);
        };
        self.case.shelf.add(name, &bytes)?;
        Ok(())
    }

    fn call<W: Write>(&mut self, words: &str, out: &mut W) -> Result<(), TableError> {
        self.case.end_file()?;
        let ending = ending_of(self.alloc, words, &mut self.case)?;
        writeln!(out, "$ {words}")?;
        print(&ending, out)
    }

    fn change<W: Write>(&mut self, words: &str, out: &mut W) -> Result<(), TableError> {
        self.case.end_file()?;
        let edit = Edit::parse(words)?;
        let mut case = self.case.edited(edit)?;
        let call = format!(in self.alloc; "check {}", self.case.name)?;
        let ending = ending_of(self.alloc, &call, &mut case)?;
        writeln!(out, "~ {words}")?;
        print(&ending, out)
    }
}

// What a call of these words leaves.
fn ending_of(alloc: Global, words: &str, case: &mut Case) -> Result<Ending, TableError> {
    let words = parted(alloc, words)?;
    let out = case.out()?;
    let err = case.err()?;
    Ending::of(alloc, &words, &mut case.shelf, out, err)
}

// Prints what was put, the status, and what was told.
fn print<W: Write>(ending: &Ending, to: &mut W) -> Result<(), TableError> {
    to.write_all(ending.out.taken())?;
    let code = ending.status.code();
    if ending.err.taken().is_empty() {
        writeln!(to, "status {code}")?;
        return Ok(());
    }
    write!(to, "status {code}, told ")?;
    to.write_all(ending.err.taken())?;
    Ok(())
}
