//! The table of the fields of a program.

ghost use Rattle.std.specs.Prelude.{◌≡◌, ◌==◌, ℕ, map, position, option_and_then, slice_get, IfOk};
ghost use Rattle.std.specs.HashMap.{get};
ghost use Rattle.object_layout.specs.FieldTables.{IsFieldTableOf};

use crate::fields::{StaticField, static_nodes, statics_at};
use class_rows::ClassTable;
use class_rows::members::indices_of;
use scj_base::{FieldId, Memory, NodeId};
use std::alloc::Global;
use std::collections::HashMap;

/// What is asked of the fields of a program, each at its number.
#[derive(Drop)]
pub struct FieldTable {
    /// Their places among all statics.
    pub(crate) static_indices: Vec<Option<u32>>,
    /// The static fields in order.
    pub(crate) statics: Vec<StaticField>,
}

/// The numbers under these nodes.
fn numbers_at(
    alloc: Global,
    found: &HashMap<usize, u32>,
    ids: &[NodeId],
) -> Result<Vec<Option<u32>>, Memory>
    ensures { IfOk result (λ numbers. numbers.items ≡ map (λ (id : ℕ). get ◌==◌ found.now id) ids.now) }
{
    let mut numbers = Vec::new(alloc);
    let mut others = ids;
    while let [id, rest @ ..] = others {
        let number = id.number();
        numbers.push(found.get(&number).copied())?;
        others = rest;
    }
    Ok(numbers)
}

/// The place of each of these nodes in another list.
#[tactic(auto, using(crate::proofs::FieldTableLemmas::places_found))]
fn indices_in(alloc: Global, ids: &[NodeId], list: &[NodeId]) -> Result<Vec<Option<u32>>, Memory>
    ensures { IfOk result
        (λ indices. indices.items ≡ map (λ (id : ℕ). position (λ other. id == other) list.now) ids.now) }
{
    let found = indices_of(alloc, list, 0)?;
    let indices = numbers_at(alloc, &found, ids)?;
    Ok(indices)
}

/// The table of the fields of a program.
#[tactic(auto, using(crate::proofs::FieldTableLemmas::statics_are, crate::proofs::FieldTableLemmas::static_places_are))]
pub fn field_table(alloc: Global, classes: &ClassTable) -> Result<FieldTable, Memory>
    ensures { IfOk result (λ table. IsFieldTableOf classes.now table) }
{
    let program = classes.program();
    let nodes = classes.field_nodes();
    let listed = static_nodes(alloc, program, nodes)?;
    let static_indices = indices_in(alloc, nodes, &listed)?;
    let statics = statics_at(alloc, program, nodes)?;
    Ok(FieldTable {
        static_indices,
        statics,
    })
}

/// The place at a number.
pub fn index_numbered(indices: &[Option<u32>], field: FieldId) -> Option<u32>
    ensures { result ≡ option_and_then (λ index. index) (slice_get indices.now field) }
{
    match indices.get(field.number() as usize) {
        Some(index) => *index,
        None => None,
    }
}
