//! The table of the bodies of a program.

ghost use Rattle.std.specs.Prelude.{◌≡◌, IfOk};
ghost use Rattle.scj_rules.specs.Contexts.{contexts_in};
ghost use Rattle.object_layout.specs.BodyTables.{IsBodyTableOf};

use crate::class_numbers::classes_of_bodies;
use class_rows::ClassTable;
use node_contexts::Contexts;
use node_contexts::numbers::count_variables;
use scj_base::{ClassId, Memory};
use std::alloc::Global;

/// What is asked of the bodies of a program, at the nodes of their methods, constructors and classes.
#[derive(Drop)]
pub struct BodyTable {
    /// How many parameters and locals each body has.
    pub(crate) locals: Vec<u32>,
    /// The class in which each body stands.
    pub(crate) classes: Vec<Option<ClassId>>,
}

/// The table of the bodies of a program.
pub fn body_table(
    alloc: Global,
    classes: &ClassTable,
    contexts: &Contexts,
) -> Result<BodyTable, Memory>
    requires { contexts.now ≡ contexts_in classes.now }
    ensures { IfOk result (λ table. IsBodyTableOf classes.now table) }
{
    let (_numbers, locals) = count_variables(alloc, classes.program(), contexts)?;
    let classes = classes_of_bodies(alloc, classes, contexts)?;
    Ok(BodyTable { locals, classes })
}
