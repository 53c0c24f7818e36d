//! Rows of scopes, and what changes in them.

ghost use Rattle.std.specs.Prelude.{◌≡◌, OnOk};
ghost use Rattle.scj_model.specs.State.{changed};
ghost use Rattle.area_tables.specs.Rows.{opening, refusing, using};

use scj_base::{Memory, ScopeId};

/// What is needed of the areas of a scope: how many were opened, the greatest size of one, the most that was in use in
/// one, and the most that would have been in use with an object for which there was no room.
#[derive(Clone, Copy, Debug, PartialEq, Eq)]
pub struct NeedRow {
    pub opened: u64,
    pub declared: u64,
    pub used: u64,
    pub refused: u64,
}

/// So many bytes are in use in an area of a scope.
pub(crate) fn note_used(rows: &mut Vec<NeedRow>, scope: ScopeId, bytes: u64)
    ensures { rows.new.items ≡ changed (using bytes) scope rows.old.items }
{
    let index = scope.number() as usize;
    if index < rows.len() {
        let row = rows[index];
        rows[index] = NeedRow {
            opened: row.opened,
            declared: row.declared,
            used: row.used.max(bytes),
            refused: row.refused,
        };
    }
}

/// So many bytes would have been in use in one.
pub(crate) fn note_refused(rows: &mut Vec<NeedRow>, scope: ScopeId, bytes: u64)
    ensures { rows.new.items ≡ changed (refusing bytes) scope rows.old.items }
{
    let index = scope.number() as usize;
    if index < rows.len() {
        let row = rows[index];
        rows[index] = NeedRow {
            opened: row.opened,
            declared: row.declared,
            used: row.used,
            refused: row.refused.max(bytes),
        };
    }
}

/// An area of so many bytes is opened.
pub(crate) fn note_opened(rows: &mut Vec<NeedRow>, scope: ScopeId, bytes: u64) -> Result<(), Memory>
    ensures { OnOk result (rows.new.items ≡ changed (opening bytes) scope rows.old.items) }
{
    let index = scope.number() as usize;
    if index < rows.len() {
        let row = rows[index];
        let Some(opened) = row.opened.checked_add(1) else {
            return Err(Memory);
        };
        rows[index] = NeedRow {
            opened,
            declared: row.declared.max(bytes),
            used: row.used,
            refused: row.refused,
        };
    }
    Ok(())
}
