//! The names of the files of a call.

ghost use Rattle.std.specs.Prelude.{◌≡◌, ◌<◌, ◌≤◌, [], ◌∷◌, ◌++◌, length, OnOk, OnErr, slice_get, Some};

use crate::errors::Memory;
use std::alloc::Global;
use std::marker::Model;

/// The names of the files of a call, in the order of the words: at most 16.
#[derive(Drop)]
pub struct Files {
    alloc: Global,
    names: Vec<String>,
}

impl Model for Files {
    ghost use Rattle.std.specs.Prelude.{List, ℕ, map, string_bytes, length, ◌≤◌};

    ghost Value = { List (List ℕ) };

    ghost view = { λ a. map string_bytes a.names.items };

    ghost invariant = { λ a. length a.names.items ≤ 16 };
}

impl Files {
    /// No files.
    pub fn new(alloc: Global) -> Files
        ensures { result ≡ [] }
    {
        Files {
            alloc,
            names: Vec::new(alloc),
        }
    }

    /// Puts a name last.
    pub fn add(&mut self, name: &str) -> Result<(), Memory>
        requires { length self.old < 16 }
        ensures ok { OnOk result (self.new ≡ self.old ++ name.now ∷ []) }
        ensures err { OnErr result (self.new ≡ self.old) }
    {
        let text = String::from_str(self.alloc, name)?;
        self.names.push(text)?;
        Ok(())
    }

    /// The name of a file by its number.
    pub fn name(&self, file: u8) -> &[u8]
        requires { file < length self.now }
        ensures { slice_get self.now file ≡ Some result.now }
    {
        self.names[file as usize].as_bytes()
    }
}
