//! One case: its files, and the words of its call.

use case_tables::{TableError, add_line};
use scj_io::MemShelf;
use std::alloc::Global;

const PLAN: &str = "plan.toml";

/// The shelf of a case, the words of its call, and the file that is being written.
#[derive(Drop)]
pub struct Case {
    alloc: Global,
    pub name: String,
    pub shelf: MemShelf,
    pub words: Vec<String>,
    file: Option<String>,
    bytes: Vec<u8>,
}

impl Case {
    /// A case without files.
    pub fn new(alloc: Global, name: &str) -> Result<Case, TableError> {
        let name = String::from_str(alloc, name)?;
        let mut case = Case {
            alloc,
            name,
            shelf: MemShelf::new(alloc),
            words: Vec::new(alloc),
            file: None,
            bytes: Vec::new(alloc),
        };
        case.add_word("run")?;
        case.add_word("--plan")?;
        case.add_word(PLAN)?;
        Ok(case)
    }

    /// Begins a file, which is a source where it isn't the plan.
    pub fn begin_file(&mut self, name: &str) -> Result<(), TableError> {
        self.end_file()?;
        if name != PLAN {
            self.add_word(name)?;
        }
        self.file = Some(String::from_str(self.alloc, name)?);
        self.bytes = Vec::new(self.alloc);
        Ok(())
    }

    /// Takes a line of the file that is being written.
    pub fn add_line(&mut self, line: &[u8]) -> Result<(), TableError> {
        add_line(&mut self.bytes, line)?;
        Ok(())
    }

    /// Puts the file that is being written on the shelf.
    pub fn end_file(&mut self) -> Result<(), TableError> {
        if let Some(name) = &self.file {
            self.shelf.add(name, &self.bytes)?;
        }
        self.file = None;
        Ok(())
    }

    fn add_word(&mut self, word: &str) -> Result<(), TableError> {
        let word = String::from_str(self.alloc, word)?;
        self.words.push(word)?;
        Ok(())
    }
}
