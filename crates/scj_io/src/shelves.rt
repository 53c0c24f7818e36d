//! Where the bytes of named files come from.

ghost use Rattle.std.specs.Prelude.{◌≡◌, ℕ, List, IfOk, IfErr};
ghost use Rattle.scj_io.specs.declared.shelves.LoadError.TheVariants.{Memory};
ghost use Rattle.scj_io.specs.Loads.{Held, ShelfGoes, shelf_run, LoadHolds, LoadRefuses};

use std::alloc::{AllocError, AllocFailed, Global};

/// Why a load gave no bytes.
#[derive(Clone, Copy, Debug, PartialEq, Eq)]
pub enum LoadError {
    /// The name couldn't be read.
    Failed,
    /// More bytes than the limit came; `taken` of them were read.
    TooLong { taken: u64 },
    /// There was no memory for the bytes.
    Memory,
}

impl From<AllocError> for LoadError {
    ghost from_gives = { λ _ answer. answer ≡ Memory };

    fn from(_error: AllocError) -> LoadError {
        LoadError::Memory
    }
}

/// Files by name.
///
/// `held` is what the shelf tells of a name, `faults` its count of failed loads of a name, and `most`
/// the most bytes that a load of a name has taken. An implementation may keep one number for all names.
pub trait Shelf {
    ghost held: { Self → List ℕ → Held };

    ghost faults: { Self → List ℕ → ℕ };

    ghost most: { Self → List ℕ → ℕ };

    /// The bytes of the file `name`, of which there may be at most `limit`.
    fn load(&mut self, alloc: Global, name: &str, limit: usize) -> Result<Vec<u8>, LoadError>
        ensures goes { ShelfGoes (held self.old) (held self.new) (faults self.old) (faults self.new)
            (most self.old) (most self.new) }
        ensures ok { IfOk result (λ bytes. LoadHolds
            (shelf_run (held self.old) (faults self.old) (faults self.new) (most self.new))
            name.now limit bytes.items) }
        ensures refusal { IfErr result (λ answer. LoadRefuses
            (shelf_run (held self.old) (faults self.old) (faults self.new) (most self.new))
            name.now limit answer) };
}
