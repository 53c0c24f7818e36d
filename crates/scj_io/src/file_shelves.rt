//! A shelf over the files of a runtime.

ghost use Rattle.std.specs.Prelude.{◌≡◌, ◌≤◌, ◌+◌, ℕ, List, [], vec_len, OnOk, IfOk, IfErr, IsErrOf};
ghost use Rattle.std.specs.Io.KnownBytes.{Consumes, IsAtEnd};
ghost use Rattle.scj_io.specs.Counters.{one_more};
ghost use Rattle.scj_io.specs.Loads.{ShelfGoes, shelf_run, LoadHolds, LoadRefuses};
ghost use Rattle.scj_io.specs.FileShelves.{nothing_reported, faults_of, most_of};
ghost use Rattle.scj_io.specs.declared.file_shelves.ReadError.TheVariants.{Memory};

use crate::counters::raised;
use crate::shelves::{LoadError, Shelf};
use std::alloc::{AllocError, Global};
use std::fs;
use std::io::Read;
use std::rt::Files;

const CHUNK: usize = 4096;

/// A shelf over the files of a runtime, by their paths.
///
/// It doesn't tell what the files hold. One number counts its failed loads of all names, and one is
/// the most bytes that any load has taken.
#[derive(Drop)]
pub struct FileShelf<'r, R> {
    files: &'r R,
    faults: u64,
    most: u64,
}

impl<'r, R: Files> FileShelf<'r, R> {
    /// A shelf that has loaded nothing.
    pub fn new(files: &'r R) -> FileShelf<'r, R>
        ensures faults { (name : List ℕ) → ⟦<FileShelf<'r, R> as Shelf>⟧.faults result name ≡ 0 }
        ensures most { (name : List ℕ) → ⟦<FileShelf<'r, R> as Shelf>⟧.most result name ≡ 0 }
    {
        FileShelf {
            files,
            faults: 0,
            most: 0,
        }
    }
}

impl<'r, R: Files> Shelf for FileShelf<'r, R> {
    ghost held = { λ _. nothing_reported };

    ghost faults = { faults_of };

    ghost most = { most_of };

    fn load(&mut self, alloc: Global, name: &str, limit: usize) -> Result<Vec<u8>, LoadError>
        ensures goes { ShelfGoes nothing_reported nothing_reported (faults_of self.old) (faults_of self.new)
            (most_of self.old) (most_of self.new) }
        ensures ok { IfOk result (λ bytes. LoadHolds
            (shelf_run nothing_reported (faults_of self.old) (faults_of self.new) (most_of self.new))
            name.now limit bytes.items) }
        ensures refusal { IfErr result (λ answer. LoadRefuses
            (shelf_run nothing_reported (faults_of self.old) (faults_of self.new) (most_of self.new))
            name.now limit answer) }
        ensures counted { (other : List ℕ) → IsErrOf result LoadError.Failed →
            faults_of self.new other ≡ one_more (faults_of self.old other) }
        ensures calm { (other : List ℕ) → ¬ IsErrOf result LoadError.Failed →
            faults_of self.new other ≡ faults_of self.old other }
    {
        let mut bytes = Vec::new(alloc);
        let ended = read_file(self.files, name, limit, &mut bytes);
        let taken = bytes.len() as u64;
        self.most = self.most.max(taken);
        match ended {
            Ok(()) if bytes.len() > limit => Err(LoadError::TooLong { taken }),
            Ok(()) => Ok(bytes),
            Err(ReadError::Memory) => Err(LoadError::Memory),
            Err(ReadError::Fault) => {
                self.faults = raised(self.faults);
                Err(LoadError::Failed)
            }
        }
    }
}

// Why reading stopped before its end.
#[derive(Clone, Copy)]
enum ReadError {
    Fault,
    Memory,
}

impl From<AllocError> for ReadError {
    ghost from_gives = { λ _ stop. stop ≡ Memory };

    fn from(_error: AllocError) -> ReadError {
        ReadError::Memory
    }
}

fn read_file<R: Files>(
    files: &R,
    name: &str,
    limit: usize,
    bytes: &mut Vec<u8>,
) -> Result<(), ReadError>
    requires { bytes.old.items ≡ [] }
{
    let Ok(mut file) = fs::open(files, name) else {
        return Err(ReadError::Fault);
    };
    read_beyond(&mut file, limit, bytes)
}

// Reads until the source ends or has given one byte more than the limit.
fn read_beyond<S: Read>(source: &mut S, limit: usize, bytes: &mut Vec<u8>) -> Result<(), ReadError>
    requires { bytes.old.items ≡ [] }
    ensures bound { vec_len bytes.new ≤ limit + 1 }
    ensures ok { OnOk result (Consumes (S.remaining source.old) (S.remaining source.new) bytes.new.items) }
    ensures end { OnOk result (vec_len bytes.new ≤ limit → IsAtEnd (S.remaining source.new)) }
{
    let mut buffer = [0; CHUNK];
    while bytes.len() <= limit {
        let room = (limit - bytes.len()).min(CHUNK - 1) + 1;
        match source.read(&mut buffer[..room]) {
            Ok(0) => return Ok(()),
            Ok(count) => bytes.extend_from_slice(&buffer[..count])?,
            Err(_) => return Err(ReadError::Fault),
        }
    }
    Ok(())
}
