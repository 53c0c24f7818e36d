//! The class in which each body stands.

ghost use Rattle.std.specs.Prelude.{◌≡◌, ℕ, None, ◌<◌, IfOk, length, set, is_some, if◌then◌else◌};
ghost use Rattle.scj_tree.specs.Recursion.{lookup};
ghost use Rattle.scj_rules.specs.Contexts.{declarations_of, contexts_in};
ghost use Rattle.scj_rules.specs.Bodies.{class_of_body};

use crate::classes::node_count;
use class_rows::ClassTable;
use node_contexts::Contexts;
use node_contexts::class_numbers::class_numbers;
use scj_base::{ClassId, Memory, NodeId};
use std::alloc::Global;

/// Tells of a node that it stands in a class, if it does.
fn learn(table: &mut Vec<Option<ClassId>>, index: usize, class: &Option<ClassId>)
    requires { index < length table.old.items }
    ensures { table.new.items ≡ (if is_some class.now then set table.old.items index class.now else table.old.items) }
{
    if class.is_some() {
        table[index] = *class;
    }
}

/// The class in which the body at each node stands.
pub fn classes_of_bodies(
    alloc: Global,
    classes: &ClassTable,
    contexts: &Contexts,
) -> Result<Vec<Option<ClassId>>, Memory>
    requires { contexts.now ≡ contexts_in classes.now }
    ensures { IfOk result
        (λ table. (body : ℕ) → lookup None table.items body ≡ class_of_body (declarations_of classes.now) body) }
{
    let mut table = class_numbers(alloc, classes.program())?;
    for number in 0..node_count(classes) {
        let context = contexts.get(NodeId::at(number as u32));
        learn(&mut table, number, &context.class);
    }
    Ok(table)
}
