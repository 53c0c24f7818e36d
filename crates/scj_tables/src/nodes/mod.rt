//! Programs whose nodes are printed, as the definitions of the reference machine write them.
//!
//! A line, `NAME FILE FILE ..`, names a program and its files in `data/programs/NAME`. Its nodes are printed in
//! their order, one a line, below a line `== NAME`, and behind them the classes of each file.

mod lines;

use case_tables::TableError;
use lines::{print_list, print_node};
use scj_base::NodeId;
use scj_check::{ParseOutcome, Sources, read};
use scj_io::Shelf;
use scj_tree::Program;
use std::alloc::Global;
use std::io::Write;

const LONGEST: usize = 1_048_576;

const MOST_FILES: usize = 16;

/// Prints the program that a line of the input names.
pub fn print_program<S: Shelf, W: Write>(
    alloc: Global,
    shelf: &mut S,
    line: &str,
    out: &mut W,
) -> Result<(), TableError> {
    let Some((name, files)) = line.split_once(' ') else {
        return Err(TableError::BadLine);
    };
    let mut sources = Sources::new(alloc);
    for file in files.split(' ') {
        let path = format!(in alloc; "programs/{name}/{file}")?;
        add_file(alloc, shelf, &mut sources, path)?;
    }
    match read(alloc, &sources)? {
        ParseOutcome::Read(program) => print(&program, name, out),
        ParseOutcome::Broken(_) => Err(TableError::BadLine),
    }
}

fn add_file<S: Shelf>(
    alloc: Global,
    shelf: &mut S,
    sources: &mut Sources,
    path: String,
) -> Result<(), TableError> {
    let Ok(bytes) = shelf.load(alloc, &path, LONGEST) else {
        return Err(TableError::NoFile);
    };
    if sources.len() >= MOST_FILES || bytes.len() > LONGEST {
        return Err(TableError::BadLine);
    }
    sources.add(path, bytes)?;
    Ok(())
}

fn print<W: Write>(program: &Program, name: &str, out: &mut W) -> Result<(), TableError> {
    writeln!(out, "== {name}")?;
    for number in 0..program.len() {
        if let Some(node) = program.get(NodeId::at(number as u32)) {
            print_node(node, out)?;
        }
    }
    for file in 0..program.file_count() {
        print_list(program.classes(file as u8), out)?;
        writeln!(out)?;
    }
    Ok(())
}
