//! The tables of a layout.

ghost use Rattle.std.specs.Prelude.{◌≡◌, None, IfOk};
ghost use Rattle.scj_tree.specs.Recursion.{lookup};
ghost use Rattle.class_rows.specs.Tables.{AreChainedScopes};
ghost use Rattle.object_layout.specs.Layouts.{AreTablesOf};

use crate::body_tables::{BodyTable, body_table};
use crate::field_tables::{FieldTable, field_table};
use crate::object_tables::{ObjectTable, object_table};
use crate::safelets::safelet_class;
use class_rows::ClassTable;
use node_contexts::Contexts;
use scj_base::{ClassId, Memory, ScopeId};
use std::alloc::Global;

/// What is told of a program before it runs.
#[derive(Drop)]
pub struct Tables {
    /// The scope that the chain of each class defines.
    pub(crate) scopes: Vec<Option<ScopeId>>,
    /// What is asked of bodies.
    pub(crate) bodies: BodyTable,
    /// What is asked of fields.
    pub(crate) fields: FieldTable,
    /// What the objects of classes have.
    pub(crate) objects: ObjectTable,
    /// The safelet's class.
    pub(crate) safelet: Option<ClassId>,
}

/// The scope at the number of a class.
pub fn scope_numbered(scopes: &[Option<ScopeId>], class: ClassId) -> Option<ScopeId>
    ensures { result ≡ lookup None scopes.now class }
{
    match scopes.get(class.number() as usize) {
        Some(scope) => *scope,
        None => None,
    }
}

/// The tables of a program, with the scopes that the chains of its classes define.
pub fn tables_of(
    alloc: Global,
    classes: &ClassTable,
    scopes: Vec<Option<ScopeId>>,
) -> Result<Tables, Memory>
    requires { AreChainedScopes classes.now scopes.items }
    ensures { IfOk result (λ tables. AreTablesOf classes.now tables) }
{
    let contexts = Contexts::of(alloc, classes.program())?;
    let bodies = body_table(alloc, classes, &contexts)?;
    let fields = field_table(alloc, classes)?;
    let objects = object_table(alloc, classes)?;
    let safelet = safelet_class(classes);
    Ok(Tables {
        scopes,
        bodies,
        fields,
        objects,
        safelet,
    })
}
