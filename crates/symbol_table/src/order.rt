//! An order of the classes in which the table goes quickly: each class behind its superclass, and all that stand under
//! a class together.

ghost use Rattle.std.specs.Prelude.{IfOk};
ghost use Rattle.symbol_table.specs.Symbols.{AreClasses};

use class_rows::ClassTable;
use scj_base::ids::OBJECT;
use scj_base::{ClassId, Memory};
use std::alloc::Global;

/// The number at the place of a class.
fn number_at(numbers: &[u32], class: ClassId) -> u32 {
    numbers.get(class.number() as usize).copied().unwrap_or(0)
}

/// Writes a number at the place of a class.
fn put_at(numbers: &mut [u32], class: ClassId, number: u32) {
    if let Some(place) = numbers.get_mut(class.number() as usize) {
        *place = number;
    }
}

/// The first class under each class, and the next class under the same superclass, in the order of their numbers; 0
/// stands for none, since `Object` has no superclass.
fn group(alloc: Global, classes: &ClassTable, count: u32) -> Result<(Vec<u32>, Vec<u32>), Memory> {
    let mut first = vec![in alloc; 0; count as usize]?;
    let mut next = vec![in alloc; 0; count as usize]?;
    for passed in 0..count {
        let class = ClassId::at(count - 1 - passed);
        if let Some(above) = classes.superclass(class) {
            put_at(&mut next, class, number_at(&first, above));
            put_at(&mut first, above, class.number());
        }
    }
    Ok((first, next))
}

/// Puts a class last, where there is one.
fn leave_over(classes: &mut Vec<ClassId>, number: u32) -> Result<(), Memory> {
    if number != 0 {
        classes.push(ClassId::at(number))?;
    }
    Ok(())
}

/// Classes in that order: those that stand under `Object`. The contract says only that they are classes of the program;
/// the order counts for speed alone, and a caller that needs each class adds those that are missing.
pub fn tour(alloc: Global, classes: &ClassTable) -> Result<Vec<ClassId>, Memory>
    ensures { IfOk result (λ order. AreClasses classes.now order.items) }
{
    let count = classes.class_count();
    let (first, next) = group(alloc, classes, count)?;
    let mut order = Vec::new(alloc);
    let mut left_over = Vec::new(alloc);
    left_over.push(OBJECT)?;
    for _index in 0..count {
        let Some(class) = left_over.pop() else {
            return Ok(order);
        };
        if class.number() >= count {
            return Ok(order);
        }
        order.push(class)?;
        leave_over(&mut left_over, number_at(&next, class))?;
        leave_over(&mut left_over, number_at(&first, class))?;
    }
    Ok(order)
}
