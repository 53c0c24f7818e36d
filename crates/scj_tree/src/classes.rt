//! The classes of a program.

ghost use Rattle.std.specs.Prelude.{◌≡◌, IfOk};
ghost use Rattle.scj_tree.specs.Forest.{joined};

use crate::programs::Program;
use scj_base::{Memory, NodeId};
use std::alloc::Global;

/// The nodes of the classes: file after file, in the order of the sources.
#[tactic(auto, using(crate::proofs::ForestLemmas::joined_more), unfolding(crate::specs::Forest::joined))]
pub fn class_ids(alloc: Global, program: &Program) -> Result<Vec<NodeId>, Memory>
    ensures { IfOk result (λ ids. ids.items ≡ joined program.now.files) }
{
    let mut ids = Vec::new(alloc);
    for file in 0..program.file_count() {
        ids.extend_from_slice(program.classes(file as u8))?;
    }
    Ok(ids)
}
