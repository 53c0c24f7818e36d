//! The program `scj`: the words that it is called with, the files that they name, and its two streams.
#![tactic(auto)]

use scj_base::Status;
use scj_cli::scj;
use scj_io::{FileShelf, Sink, StdSink, put_all};
use std::alloc::AllocError;
use std::env;
use std::io::{ErrorKind, Write};
use std::process::ExitCode;
use std::rt::{Env, Files};

fn main(rt: HostRuntime) -> ExitCode {
    run(&rt, rt.stdout(), rt.stderr())
}

fn run<R: Files + Env + AllocGlobal, O: Write + Drop, E: Write + Drop>(
    rt: &R,
    out: O,
    err: E,
) -> ExitCode {
    let mut shelf = FileShelf::new(rt);
    let mut out = StdSink::new(out);
    let mut err = StdSink::new(err);
    let status = match words(rt) {
        Ok(words) => scj(rt.alloc(), &words, &mut shelf, &mut out, &mut err),
        Err(_) => report_no_memory(&mut err),
    };
    ExitCode::from(status.code())
}

// The arguments behind the program's name; those that aren't text are no words.
fn words<R: Env + AllocGlobal>(rt: &R) -> Result<Vec<String>, AllocError> {
    match env::args(rt) {
        Ok(arguments) => arguments.skip(1).collect(rt.alloc()),
        Err(error) if error.kind() == ErrorKind::OutOfMemory => Err(AllocError),
        Err(_) => Ok(Vec::new(rt.alloc())),
    }
}

// There was no memory for the words.
fn report_no_memory<E: Sink>(err: &mut E) -> Status {
    match put_all(err, b"scj: memory\n") {
        Ok(()) => Status::NoMemory,
        Err(_) => Status::WriteFault,
    }
}
