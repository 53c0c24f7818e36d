//! The classes as they count: each as it is written, or, where something in its header is forbidden, as a class under
//! `Object` without interfaces.

ghost use Rattle.std.specs.Prelude.{◌≡◌, length, IfOk};
ghost use Rattle.scj_tree.specs.Recursion.{listed};
ghost use Rattle.scj_rules.specs.Classes.{superclass_in, interfaces_in};
ghost use Rattle.scj_rules.specs.Contexts.{declarations_of};
ghost use Rattle.class_headers.specs.Ways.{way_in};
ghost use Rattle.class_rows.specs.Tables.{AreUnderObject, class_written, is_good_header, is_under_object};

use class_headers::Headers;
use class_headers::ways::{Way, first_way, is_marked};
use scj_base::ids::OBJECT;
use scj_base::{ClassId, Memory};
use std::alloc::Global;

/// Whether nothing in the header of a class is forbidden.
#[tactic(auto, using(crate::proofs::BuildingLemmas::good_user, crate::proofs::BuildingLemmas::good_framework))]
fn has_good_header(alloc: Global, written: &Headers<'_>, class: ClassId) -> Result<bool, Memory>
    ensures { IfOk result (λ is_good. is_good ≡ is_good_header (declarations_of written.now) class
        (class_written (declarations_of written.now) class)) }
{
    match written.class_node(class) {
        Some(node) => written.is_well_headed(alloc, class, node),
        None => Ok(true),
    }
}

/// How many classes there are, if they can be numbered.
pub fn count_of(written: &Headers<'_>) -> Result<u32, Memory>
    ensures { IfOk result (λ count. count ≡ length (declarations_of written.now).written) }
{
    let count = written.count();
    if count > u32::MAX as usize {
        return Err(Memory);
    }
    Ok(count as u32)
}

/// Marks for the classes that count as classes under `Object`.
#[tactic(auto, unfolding(scj_tree::specs::Recursion::listed))]
pub fn marks_under_object(alloc: Global, written: &Headers<'_>) -> Result<Vec<bool>, Memory>
    ensures { IfOk result (λ marks. AreUnderObject written.now marks.items) }
{
    let count = count_of(written)?;
    let mut marks = Vec::new(alloc);
    for number in 0..count {
        let is_good = has_good_header(alloc, written, ClassId::at(number))?;
        marks.push(!is_good)?;
    }
    Ok(marks)
}

/// The superclass of a class as it counts.
#[tactic(auto, using(crate::proofs::RowLemmas::superclass_counts))]
pub fn superclass_of(written: &Headers<'_>, class: ClassId, under_object: bool) -> Option<ClassId>
    requires { under_object ≡ is_under_object (declarations_of written.now) class }
    ensures { result ≡ superclass_in (declarations_of written.now).classes class }
{
    if under_object {
        return Some(OBJECT);
    }
    written.superclass(class)
}

/// The interfaces of a class as it counts.
#[tactic(auto, using(crate::proofs::RowLemmas::interfaces_count))]
pub fn interfaces_of<'t>(
    written: &'t Headers<'_>,
    class: ClassId,
    under_object: bool,
) -> &'t [ClassId]
    requires { under_object ≡ is_under_object (declarations_of written.now) class }
    ensures { result.now ≡ interfaces_in (declarations_of written.now).classes class }
{
    if under_object {
        return &[];
    }
    written.interfaces(class)
}

/// The ways of one step from the classes as they count.
#[tactic(auto, using(crate::proofs::RowLemmas::marked_at), unfolding(scj_tree::specs::Recursion::listed))]
pub fn ways_of(alloc: Global, written: &Headers<'_>, marks: &[bool]) -> Result<Vec<Way>, Memory>
    requires { AreUnderObject written.now marks.now }
    ensures { IfOk result (λ ways. ways.items ≡ listed (way_in (declarations_of written.now).classes)
        (length (declarations_of written.now).written)) }
{
    let count = count_of(written)?;
    let mut ways = Vec::new(alloc);
    for number in 0..count {
        let class = ClassId::at(number);
        let under_object = is_marked(marks, class);
        let superclass = superclass_of(written, class, under_object);
        let interfaces = interfaces_of(written, class, under_object);
        ways.push(first_way(number as usize, superclass, interfaces))?;
    }
    Ok(ways)
}
