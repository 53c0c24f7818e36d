//! One case: the name and the bytes of a source.

use case_tables::{Edit, TableError, add_line};
use std::alloc::Global;

#[derive(Drop)]
pub struct Case {
    pub name: String,
    pub source: Vec<u8>,
}

impl Case {
    /// A case without lines.
    pub fn new(alloc: Global, name: &str) -> Result<Case, TableError> {
        let name = String::from_str(alloc, name)?;
        Ok(Case {
            name,
            source: Vec::new(alloc),
        })
    }

    /// Adds what a line stands for.
    pub fn add_line(&mut self, line: &str) -> Result<(), TableError> {
        add_line(&mut self.source, line.as_bytes())?;
        Ok(())
    }

    /// The case of a name that an edit makes of this one.
    pub fn edited(&self, alloc: Global, name: &str, edit: Edit<'_>) -> Result<Case, TableError> {
        let source = edit.changed(alloc, &self.source)?;
        let name = String::from_str(alloc, name)?;
        Ok(Case { name, source })
    }
}
