//! Words that are taken once, none of which is written at first, and that are given back at the end of their owner.
#![tactic(auto, using(crate::proofs::Forgotten::kept))]

ghost use Rattle.std.specs.Prelude.{◌≡◌, ◌<◌, Some, None, length, replicate, get_or, slice_set, IfOk, IsSome};
ghost use Rattle.raw_words.specs.Places.{forgotten};

use std::alloc::Global;
use std::marker::Model;

mod cells;
#[cfg(test)]
mod tests;

// A crate can name the words in a contract only if the types of their fields are exported.
#[doc(hidden)]
pub use cells::{Base, Cells, Deed};
use cells::{allocate, deallocate};
use scj_base::Memory;

/// The most words that are asked for, a gigabyte.
const MOST: usize = 0x0800_0000;

/// Words behind a raw pointer. A contract sees each as `None` until it is written, and again once it is forgotten.
pub struct RawWords {
    base: Base<u64>,
    count: usize,
    cells: Cells<u64>,
    deed: Deed<u64, Global>,
    heap: Global,
}

impl Model for RawWords {
    ghost use Rattle.std.specs.Prelude.{◌≡◌, ℕ, List, Option, length};

    ghost Value = { List (Option ℕ) };

    ghost view = { λ w. w.cells.slots };

    ghost invariant = { λ w. (w.base.ptr ≡ w.cells.at) × (w.deed.at ≡ w.base.ptr) × (w.deed.len ≡ w.count)
        × (w.deed.alloc ≡ w.heap) × (w.count ≡ length w.cells.slots) };
}

impl RawWords {
    /// So many words, none of which is written.
    pub fn make(alloc: Global, count: usize) -> Result<RawWords, Memory>
        ensures { IfOk result (λ words. words ≡ replicate count None) }
    {
        if MOST < count {
            return Err(Memory);
        }
        match allocate(&alloc, count) {
            Ok((base, cells, deed)) => Ok(RawWords {
                base,
                count,
                cells,
                deed,
                heap: alloc,
            }),
            Err(_refused) => Err(Memory),
        }
    }

    /// How many words there are.
    pub fn len(&self) -> usize
        ensures { result ≡ length self.now }
    {
        self.count
    }

    /// A word that was written since it was last forgotten.
    pub fn read(&self, index: usize) -> u64
        requires { IsSome (get_or self.now index None) }
        ensures { get_or self.now index None ≡ Some result }
    {
        *self.cells.get(self.base, index)
    }

    /// Writes a word.
    pub fn write(&mut self, index: usize, word: u64)
        requires { index < length self.old }
        ensures { self.new ≡ slice_set self.old index (Some word) }
    {
        self.cells.write(self.base, index, word);
    }

    /// Forgets the words from one on. It takes no time.
    pub fn forget_from(&mut self, index: usize)
        ensures { self.new ≡ forgotten index self.old }
    {
        self.cells.forget_from(index);
    }
}

impl Drop for RawWords {
    fn drop(mut self) {
        self.cells.forget_from(0);
        let RawWords {
            base,
            count,
            cells,
            deed,
            heap,
        } = self;
        deallocate(&heap, base, count, cells, deed);
    }
}
