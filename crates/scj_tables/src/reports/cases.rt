//! One case: its files, and what goes wrong outside.

use crate::calls::ROOM;
use case_tables::{Edit, TableError, add_line};
use scj_io::{MemShelf, MemSink};
use std::alloc::Global;

/// The shelf of a case, the last file that was written and whether it is still open, and the case's two outputs.
#[derive(Drop)]
pub struct Case {
    alloc: Global,
    pub shelf: MemShelf,
    pub name: String,
    is_open: bool,
    source: Vec<u8>,
    room: usize,
    out_fails: Option<u64>,
    err_fails: Option<u64>,
}

impl Case {
    /// A case without files, in which nothing goes wrong.
    pub fn new(alloc: Global) -> Case {
        Case {
            alloc,
            shelf: MemShelf::new(alloc),
            name: String::new(alloc),
            is_open: false,
            source: Vec::new(alloc),
            room: ROOM,
            out_fails: None,
            err_fails: None,
        }
    }

    /// Begins a file.
    pub fn begin_file(&mut self, name: &str) -> Result<(), TableError> {
        self.end_file()?;
        self.name = String::from_str(self.alloc, name)?;
        self.source = Vec::new(self.alloc);
        self.is_open = true;
        Ok(())
    }

    /// Takes a line of the file that is being written; elsewhere the line is a comment.
    pub fn add_line(&mut self, line: &str) -> Result<(), TableError> {
        if self.is_open {
            add_line(&mut self.source, line.as_bytes())?;
        }
        Ok(())
    }

    /// Takes a line so many times: `COUNT LINE`.
    pub fn add_copies(&mut self, words: &str) -> Result<(), TableError> {
        let (count, line) = words.split_once(' ').ok_or(TableError::BadLine)?;
        let count = number(count)?;
        for _ in 0..count {
            self.add_line(line)?;
        }
        Ok(())
    }

    /// Puts the file that is being written on the shelf.
    pub fn end_file(&mut self) -> Result<(), TableError> {
        if self.is_open {
            self.shelf.add(&self.name, &self.source)?;
            self.is_open = false;
        }
        Ok(())
    }

    /// The case of the last written file alone, changed by an edit.
    pub fn edited(&self, edit: Edit<'_>) -> Result<Case, TableError> {
        let source = edit.changed(self.alloc, &self.source)?;
        let mut case = Case::new(self.alloc);
        case.shelf.add(&self.name, &source)?;
        Ok(case)
    }

    /// Adds a file of blanks: `COUNT NAME`.
    pub fn add_blanks(&mut self, words: &str) -> Result<(), TableError> {
        let (count, name) = words.split_once(' ').ok_or(TableError::BadLine)?;
        let count = number(count)?;
        let blanks = vec![in self.alloc; b' '; count as usize]?;
        self.shelf.add(name, &blanks)?;
        Ok(())
    }

    /// Lets something go wrong: `load N`, `out N`, `err N` or `room N`.
    pub fn add_fault(&mut self, words: &str) -> Result<(), TableError> {
        let (what, count) = words.split_once(' ').ok_or(TableError::BadLine)?;
        let count = number(count)?;
        match what {
            "load" => self.shelf.fail_at(count)?,
            "out" => self.out_fails = Some(count),
            "err" => self.err_fails = Some(count),
            "room" => self.room = count as usize,
            _ => return Err(TableError::BadLine),
        }
        Ok(())
    }

    /// The output of a call.
    pub fn out(&self) -> Result<MemSink, TableError> {
        sink(self.alloc, self.room, self.out_fails)
    }

    /// What a call tells its errors to.
    pub fn err(&self) -> Result<MemSink, TableError> {
        sink(self.alloc, ROOM, self.err_fails)
    }
}

fn sink(alloc: Global, room: usize, fails: Option<u64>) -> Result<MemSink, TableError> {
    let mut sink = MemSink::with_capacity(alloc, room)?;
    if let Some(call) = fails {
        sink.fail_at(call)?;
    }
    Ok(sink)
}

fn number(word: &str) -> Result<u64, TableError> {
    match word.parse() {
        Ok(number) => Ok(number),
        Err(_) => Err(TableError::BadLine),
    }
}
