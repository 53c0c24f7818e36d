//! The numbers of the classes of a program, by their nodes.

ghost use Rattle.std.specs.Prelude.{◌≡◌, ◌<◌, ℕ, None, Some, IfOk, OnOk, length, replicate, set};
ghost use Rattle.scj_tree.specs.Forest.{joined};
ghost use Rattle.scj_tree.specs.Recursion.{lookup};
ghost use Rattle.scj_rules.specs.Contexts.{number_of_class};

use scj_base::{ClassId, Memory, NodeId};
use scj_builtins::FRAMEWORK_CLASS_COUNT;
use scj_tree::{Program, class_ids};
use std::alloc::Global;

/// So many nodes without numbers.
fn unnumbered(alloc: Global, count: usize) -> Result<Vec<Option<ClassId>>, Memory>
    ensures { IfOk result (λ numbers. numbers.items ≡ replicate count None) }
{
    Ok(vec![in alloc; None; count]?)
}

/// Writes the number of a class.
fn put(numbers: &mut Vec<Option<ClassId>>, node: NodeId, class: ClassId) -> Result<(), Memory>
    ensures within { OnOk result (node < length numbers.old.items) }
    ensures new { OnOk result (numbers.new.items ≡ set numbers.old.items node (Some class)) }
{
    let number = node.number();
    if number >= numbers.len() {
        return Err(Memory);
    }
    numbers[number] = Some(class);
    Ok(())
}

/// The number of the class of each node, if it is one.
pub fn class_numbers(alloc: Global, program: &Program) -> Result<Vec<Option<ClassId>>, Memory>
    ensures whole { IfOk result (λ numbers. length numbers.items ≡ length program.now.nodes) }
    ensures exact { IfOk result
        (λ numbers. (id : ℕ) → lookup None numbers.items id ≡ number_of_class (joined program.now.files) id) }
{
    let all = class_ids(alloc, program)?;
    if all.len() > (u32::MAX - FRAMEWORK_CLASS_COUNT) as usize {
        return Err(Memory);
    }
    let mut numbers = unnumbered(alloc, program.len())?;
    let mut rest = all.as_slice();
    while let [others @ .., node] = rest {
        let class = ClassId::at(FRAMEWORK_CLASS_COUNT + others.len() as u32);
        put(&mut numbers, *node, class)?;
        rest = others;
    }
    Ok(numbers)
}
