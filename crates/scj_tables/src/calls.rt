//! A whole call.

use case_tables::TableError;
use scj_base::Status;
use scj_cli::scj;
use scj_io::{MemShelf, MemSink};
use std::alloc::Global;

/// Ample room for what a call puts or tells.
pub const ROOM: usize = 65_536;

/// What a call leaves: its status, and what it put and told.
#[derive(Drop)]
pub struct Ending {
    pub status: Status,
    pub out: MemSink,
    pub err: MemSink,
}

impl Ending {
    /// What a call of these words leaves, over a shelf and two outputs.
    pub fn of(
        alloc: Global,
        words: &[String],
        shelf: &mut MemShelf,
        mut out: MemSink,
        mut err: MemSink,
    ) -> Result<Ending, TableError> {
        let status = scj(alloc, words, shelf, &mut out, &mut err);
        if status == Status::NoMemory {
            return Err(TableError::Memory);
        }
        Ok(Ending { status, out, err })
    }

    /// The same with ample room.
    pub fn with_room(
        alloc: Global,
        words: &[String],
        shelf: &mut MemShelf,
    ) -> Result<Ending, TableError> {
        let out = MemSink::with_capacity(alloc, ROOM)?;
        let err = MemSink::with_capacity(alloc, ROOM)?;
        Ending::of(alloc, words, shelf, out, err)
    }
}

/// The words of a line, parted by single blanks; none where it is empty.
pub fn parted(alloc: Global, line: &str) -> Result<Vec<String>, TableError> {
    let mut words = Vec::new(alloc);
    if line.is_empty() {
        return Ok(words);
    }
    for word in line.split(' ') {
        words.push(String::from_str(alloc, word)?)?;
    }
    Ok(words)
}
