//! The table of the objects of a program.

ghost use Rattle.std.specs.Prelude.{◌≡◌, option_copied, replicate, slice_get, IfOk};
ghost use Rattle.object_layout.specs.Objects.{all_noted, IsObjectTableOf};

use crate::objects::{ObjectRow, object_rows};
use crate::slots::{has_all_indices, note_indices};
use class_rows::ClassTable;
use scj_base::{ClassId, Memory};
use std::alloc::Global;

/// What the objects of each class have.
#[derive(Drop)]
pub struct ObjectTable {
    /// The classes, each at its number.
    pub(crate) rows: Vec<ObjectRow>,
    /// The place of each field among those of an object, at the field's node.
    pub(crate) indices: Vec<u32>,
    /// Whether that is its place in the objects of each class that have it.
    pub(crate) is_regular: bool,
}

/// The places of the fields of all objects, at so many nodes.
#[tactic(auto, unfolding(crate::specs::Objects::all_noted))]
fn all_indices(alloc: Global, count: usize, rows: &[ObjectRow]) -> Result<Vec<u32>, Memory>
    ensures { IfOk result (λ indices. indices.items ≡ all_noted (replicate count 0) rows.now) }
{
    let mut indices = vec![in alloc; 0; count]?;
    let mut others = rows;
    while let [row, rest @ ..] = others {
        note_indices(&mut indices, &row.fields);
        others = rest;
    }
    Ok(indices)
}

/// The table of the objects of a program.
pub fn object_table(alloc: Global, classes: &ClassTable) -> Result<ObjectTable, Memory>
    ensures { IfOk result (λ table. IsObjectTableOf classes.now table) }
{
    let rows = object_rows(alloc, classes)?;
    let indices = all_indices(alloc, classes.program().len(), &rows)?;
    let is_regular = has_all_indices(&indices, &rows);
    Ok(ObjectTable {
        rows,
        indices,
        is_regular,
    })
}

impl ObjectTable {
    /// The row of a class.
    pub fn row(&self, class: ClassId) -> Option<&ObjectRow>
        ensures { option_copied result ≡ slice_get self.now.rows.items class }
    {
        self.rows.get(class.number() as usize)
    }
}
