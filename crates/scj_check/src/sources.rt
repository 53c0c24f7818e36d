//! The sources of a call.

ghost use Rattle.std.specs.Prelude.{◌≡◌, ◌<◌, ◌≤◌, [], ◌∷◌, ◌++◌, length, string_bytes, OnOk, OnErr, Some, slice_get};
ghost use Rattle.scj_check.specs.Texts.{texts_of};

use scj_base::Memory;
use std::alloc::Global;
use std::marker::Model;

/// A file: its name and its bytes.
#[derive(Drop)]
struct Source {
    name: String,
    text: Vec<u8>,
}

/// The files of a call in their order, at most 16 of at most 1 MiB each: pairs of a name and the bytes.
#[derive(Drop)]
pub struct Sources {
    items: Vec<Source>,
}

impl Model for Sources {
    ghost use Rattle.std.specs.Prelude.{List, ℕ, map, length, ◌≤◌, string_bytes};
    ghost use Rattle.std.specs.List.{All};

    ghost Value = { List (List ℕ × List ℕ) };

    ghost view = { λ a. map (λ s. (string_bytes s.name, s.text.items)) a.items.items };

    ghost invariant = { λ a. (length a.items.items ≤ 16) × All (λ s. length s.text.items ≤ 1048576) a.items.items };
}

impl Sources {
    /// No files.
    pub fn new(alloc: Global) -> Sources
        ensures { result ≡ [] }
    {
        Sources {
            items: Vec::new(alloc),
        }
    }

    /// Puts a file last.
    pub fn add(&mut self, name: String, bytes: Vec<u8>) -> Result<(), Memory>
        requires few { length self.old < 16 }
        requires short { length bytes.items ≤ 1048576 }
        ensures ok { OnOk result (self.new ≡ self.old ++ (string_bytes name, bytes.items) ∷ []) }
        ensures err { OnErr result (self.new ≡ self.old) }
    {
        self.items.push(Source { name, text: bytes })?;
        Ok(())
    }

    /// The number of files.
    pub fn len(&self) -> usize
        ensures value { result ≡ length self.now }
        ensures few { length self.now ≤ 16 }
    {
        self.items.len()
    }

    /// The bytes of all files.
    pub(crate) fn byte_count(&self) -> usize {
        let mut count: usize = 0;
        for source in &self.items {
            count = count.saturating_add(source.text.len());
        }
        count
    }

    /// The bytes of a file.
    pub fn text(&self, file: usize) -> &[u8]
        requires { file < length self.now }
        ensures value { slice_get (texts_of self.now) file ≡ Some result.now }
        ensures short { length result.now ≤ 1048576 }
    {
        self.items[file].text.as_slice()
    }
}
