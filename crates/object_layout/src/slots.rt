//! The places of fields among those of an object. In a program that breaks no rule a field has one place in the objects
//! of all classes, and one table tells it; whether it does is tested when the table is made.

ghost use Rattle.std.specs.Prelude.{◌≡◌, ◌↔◌, ◌<◌, ◌==◌, ◌+◌, ℕ, true, length, option_map, position, slice_get, slice_set, Some, IfSome, IsTrue};
ghost use Rattle.scj_tree.specs.Recursion.{lookup};
ghost use Rattle.object_layout.specs.declared.objects.ObjectRow.{ObjectRow as Row};
ghost use Rattle.object_layout.specs.Slots.{HasIndices, noted};

use crate::objects::ObjectRow;
use scj_base::NodeId;
use scj_tree::row_or;

/// Notes the place of a field.
fn note_index(indices: &mut Vec<u32>, field: NodeId, index: u32)
    ensures { indices.new.items ≡ slice_set indices.old.items field index }
{
    let at = field.number();
    if at < indices.len() {
        indices[at] = index;
    }
}

/// Notes the places of the fields of an object.
#[tactic(auto, unfolding(crate::specs::Slots::noted))]
pub fn note_indices(indices: &mut Vec<u32>, fields: &[NodeId])
    ensures { indices.new.items ≡ noted indices.old.items 0 fields.now }
{
    let mut index = 0u32;
    let mut others = fields;
    while let [field, rest @ ..] = others {
        note_index(indices, *field, index);
        index = index.wrapping_add(1);
        others = rest;
    }
}

/// Whether the table has the places of all these fields.
fn has_indices(indices: &[u32], fields: &[NodeId]) -> bool
    ensures { IsTrue result ↔ (HasIndices indices.now fields.now) }
{
    for k in 0..fields.len() {
        if row_or(indices, 0, fields[k]) as usize != k {
            return false;
        }
    }
    true
}

/// Whether the table has the places of the fields of all objects.
pub fn has_all_indices(indices: &[u32], rows: &[ObjectRow]) -> bool
    ensures { IsTrue result ↔
        ((class : ℕ) (row : Row) → slice_get rows.now class ≡ Some row → HasIndices indices.now row.fields.items) }
{
    for at in 0..rows.len() {
        let row = &rows[at];
        if !has_indices(indices, &row.fields) {
            return false;
        }
    }
    true
}

/// Whether a field stands at a place.
fn stands_at(fields: &[NodeId], index: usize, field: NodeId) -> bool
    requires { index < length fields.now }
    ensures { result ≡ (field == lookup 0 fields.now index) }
{
    field == fields[index]
}

/// The place of a field that the table has, if the field is there.
fn index_by_table(fields: &[NodeId], indices: &[u32], field: NodeId) -> Option<usize>
    requires { HasIndices indices.now fields.now }
    ensures value { result ≡ position (λ other. field == other) fields.now }
    ensures within { IfSome result (λ index. index < length fields.now) }
{
    let index = row_or(indices, 0, field) as usize;
    if index >= fields.len() {
        return None;
    }
    if stands_at(fields, index, field) {
        Some(index)
    } else {
        None
    }
}

/// The first place of a field.
#[tactic(auto, using(crate::proofs::SlotLemmas::found_first, crate::proofs::SlotLemmas::found_nowhere))]
fn index_by_search(fields: &[NodeId], field: NodeId) -> Option<usize>
    ensures value { result ≡ position (λ other. field == other) fields.now }
    ensures within { IfSome result (λ index. index < length fields.now) }
{
    for index in 0..fields.len() {
        if fields[index] == field {
            return Some(index);
        }
    }
    None
}

/// The place of a field among those of an object.
pub fn index_of(
    fields: &[NodeId],
    indices: &[u32],
    is_regular: bool,
    field: NodeId,
) -> Option<usize>
    requires { is_regular ≡ true → HasIndices indices.now fields.now }
    ensures value { result ≡ position (λ other. field == other) fields.now }
    ensures within { IfSome result (λ index. index < length fields.now) }
{
    if is_regular {
        index_by_table(fields, indices, field)
    } else {
        index_by_search(fields, field)
    }
}

/// The slot at a place behind the fields that nothing declares.
pub fn slot_at(row: &ObjectRow, index: Option<usize>) -> Option<u32>
    requires sum { row.now.hidden + length row.now.fields.items ≡ row.now.slots }
    requires within { IfSome index (λ k. k < length row.now.fields.items) }
    ensures { result ≡ option_map (λ k. row.now.hidden + k) index }
{
    match index {
        Some(index) => Some(row.hidden + index as u32),
        None => None,
    }
}
