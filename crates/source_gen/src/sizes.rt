//! Why no program is generated.

use scj_base::Memory;

/// Why no program is generated.
#[derive(Clone, Copy, Debug, PartialEq, Eq)]
pub enum GenError {
    /// There is no program of this size: sizes are 1 to 250.
    Size { n: u32 },
    /// There was no memory for the texts.
    Memory,
}

impl From<Memory> for GenError {
    ghost use Rattle.std.specs.Prelude.{◌≡◌};
    ghost use Rattle.source_gen.specs.declared.sizes.GenError.TheVariants.{Memory as NoMemory};

    ghost from_gives = { λ _ answer. answer ≡ NoMemory };

    fn from(_memory: Memory) -> GenError {
        GenError::Memory
    }
}
