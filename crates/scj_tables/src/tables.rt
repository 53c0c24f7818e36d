//! The table at which the program stands.

use crate::{changed, nodes, reports, runs};
use case_tables::TableError;
use scj_io::Shelf;
use std::alloc::Global;
use std::io::Write;

#[derive(Drop)]
enum Table {
    None,
    Reports(reports::Run),
    Changed(changed::Run),
    Runs(runs::Run),
    Nodes,
}

/// The table whose lines are being read, and the files beside the program.
#[derive(Drop)]
pub struct Tables<S> {
    alloc: Global,
    files: S,
    table: Table,
}

impl<S: Shelf + Drop> Tables<S> {
    /// No table yet.
    pub fn new(alloc: Global, files: S) -> Tables<S> {
        Tables {
            alloc,
            files,
            table: Table::None,
        }
    }

    /// Takes the next line of the input.
    pub fn take_line<W: Write>(&mut self, line: &str, out: &mut W) -> Result<(), TableError> {
        if let Some(name) = line.strip_prefix("%% ") {
            return self.begin(name, out);
        }
        match &mut self.table {
            Table::None => Err(TableError::BadLine),
            Table::Reports(run) => run.take_line(line, &mut self.files, out),
            Table::Changed(run) => run.take_line(line, out),
            Table::Runs(run) => run.take_line(line, out),
            Table::Nodes => nodes::print_program(self.alloc, &mut self.files, line, out),
        }
    }

    /// Ends the table.
    pub fn end<W: Write>(&mut self, out: &mut W) -> Result<(), TableError> {
        match &mut self.table {
            Table::Changed(run) => run.end(out),
            Table::Runs(run) => run.end(out),
            _ => Ok(()),
        }
    }

    fn begin<W: Write>(&mut self, name: &str, out: &mut W) -> Result<(), TableError> {
        self.end(out)?;
        self.table = match name {
            "reports" => Table::Reports(reports::Run::new(self.alloc)),
            "changed" => Table::Changed(changed::Run::new(self.alloc)?),
            "runs" => Table::Runs(runs::Run::new(self.alloc)),
            "nodes" => Table::Nodes,
            _ => return Err(TableError::BadLine),
        };
        writeln!(out, "%% {name}")?;
        Ok(())
    }
}
