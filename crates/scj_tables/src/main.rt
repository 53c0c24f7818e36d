//! Runs tables of cases, and prints what comes of each case.
//!
//! A line `%% NAME` of the input begins a table, and is printed: `reports`, `changed`, `runs` or `nodes`. The module of
//! that name says how the lines of the table are read.
#![tactic(auto)]

mod calls;
mod changed;
mod nodes;
mod reports;
mod runs;
mod tables;

use case_tables::TableError;
use scj_io::FileShelf;
use std::alloc::Global;
use std::io::{self, BufRead, BufReader, BufWriter, Write};
use std::rt::Files;
use tables::Tables;

fn main(rt: HostRuntime) -> Result<(), TableError> {
    let alloc = rt.alloc();
    let lines = BufReader::new(alloc, rt.reader())?;
    let out = BufWriter::new(alloc, io::writer(&rt))?;
    print_all(alloc, &rt, lines, out)
}

fn print_all<F: Files, R: BufRead + Drop, W: Write + Drop>(
    alloc: Global,
    files: &F,
    input: R,
    mut out: W,
) -> Result<(), TableError> {
    let mut tables = Tables::new(alloc, FileShelf::new(files));
    for line in input.lines(alloc) {
        let line = line?;
        tables.take_line(&line, &mut out)?;
    }
    tables.end(&mut out)?;
    out.flush()?;
    Ok(())
}
