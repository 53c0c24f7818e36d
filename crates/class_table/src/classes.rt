//! What is broken at the classes, and what a tour of them tells.

ghost use Rattle.std.specs.Prelude.{◌≡◌, ◌++◌, ◌<◌, [], ℕ, true, false, length, flat_map, IfOk, OnOk};
ghost use Rattle.scj_tree.specs.Recursion.{lookup};
ghost use Rattle.scj_rules.specs.Words.{is_among};
ghost use Rattle.scj_rules.specs.Contexts.{declarations_of};
ghost use Rattle.scj_rules.specs.Phases.{over_classes};
ghost use Rattle.class_rows.specs.declared.members.MemberKind.TheVariants.{Field, Method};
ghost use Rattle.class_rows.specs.Inherited.{AreInheritedMethods};
ghost use Rattle.class_rows.specs.Members.{AreNearest};
ghost use Rattle.class_rules.specs.Parts.{class_found};
ghost use Rattle.node_rules.specs.Findings.{FindSame};
ghost use Rattle.symbol_table.specs.Symbols.{AreClasses};
ghost use Rattle.class_table.specs.Noted.{broken_at_class, HasEach};

use crate::inherited::{no_methods_inherited, note_inherited_methods};
use class_headers::ways::is_marked;
use class_rows::{ClassTable, InheritedMethods, NearestMembers};
use class_rules::parts::parts_of;
use class_rules::rules::note_rules;
use scj_base::{ClassId, Found, Memory};
use std::alloc::Global;
use symbol_table::{SymbolTable, tour};

/// Notes what is broken at the class at which the table stands.
#[tactic(auto, using(crate::proofs::ClassLemmas::at_written, crate::proofs::ClassLemmas::at_other))]
fn note_class(alloc: Global, found: &mut Vec<Found>, table: &SymbolTable<'_>) -> Result<(), Memory>
    requires { table.now.class < length (declarations_of table.now.forest).classes }
    ensures { OnOk result (found.new.items ≡ found.old.items ++ broken_at_class table.now.forest table.now.class) }
{
    let Some(c) = parts_of(table.classes(), table.class()) else {
        return Ok(());
    };
    note_rules(alloc, found, table, &c)?;
    Ok(())
}

/// Marks of the classes among these.
#[tactic(auto, using(scj_rules::proofs::ChainLemmas::is_same_number, crate::proofs::NotedLemmas::marked_before))]
fn marks_of(alloc: Global, classes: &[ClassId], count: u32) -> Result<Vec<bool>, Memory>
    ensures { IfOk result (λ marks. (class : ℕ) → lookup false marks.items class ≡ true →
        is_among class classes.now ≡ true) }
{
    let mut marks = vec![in alloc; false; count as usize]?;
    for class in classes {
        let at = class.number() as usize;
        if at >= marks.len() {
            return Err(Memory);
        }
        marks[at] = true;
    }
    Ok(marks)
}

/// All classes, in an order in which a table goes quickly from one to the next.
pub fn in_order(alloc: Global, classes: &ClassTable<'_>) -> Result<Vec<ClassId>, Memory>
    ensures each { IfOk result (λ order. HasEach classes.now order.items) }
    ensures classes { IfOk result (λ order. AreClasses classes.now order.items) }
{
    let count = classes.class_count();
    let mut order = tour(alloc, classes)?;
    let marks = marks_of(alloc, order.as_slice(), count)?;
    for number in 0..count {
        if is_marked(marks.as_slice(), ClassId::at(number)) {
            continue;
        }
        order.push(ClassId::at(number))?;
    }
    Ok(order)
}

/// Notes what is broken at each of these classes, and tells which methods they inherit.
fn note_each(
    alloc: Global,
    found: &mut Vec<Found>,
    reported: &mut InheritedMethods,
    table: &mut SymbolTable<'_>,
    classes: &[ClassId],
) -> Result<(), Memory>
    requires { AreClasses table.old.forest classes.now }
    ensures found { OnOk result (found.new.items ≡ found.old.items
        ++ flat_map (broken_at_class table.old.forest) classes.now) }
    ensures reported { OnOk result (AreInheritedMethods (declarations_of table.old.forest) classes.now reported.old →
        AreInheritedMethods (declarations_of table.old.forest) [] reported.new) }
    ensures forest { OnOk result (table.new.forest ≡ table.old.forest) }
{
    let mut others = classes;
    while let [class, rest @ ..] = others {
        table.go_to(*class)?;
        note_class(alloc, found, table)?;
        note_inherited_methods(reported, table)?;
        others = rest;
    }
    Ok(())
}

/// Notes what is broken at each class, and gives which methods they inherit, and what stands above them.
#[tactic(auto, using(crate::proofs::NotedLemmas::each_noted))]
pub fn note_classes(
    alloc: Global,
    found: &mut Vec<Found>,
    classes: &ClassTable<'_>,
    order: &[ClassId],
) -> Result<(InheritedMethods, NearestMembers, NearestMembers), Memory>
    requires each { HasEach classes.now order.now }
    requires classes { AreClasses classes.now order.now }
    ensures found { OnOk result (FindSame found.new.items (found.old.items
        ++ over_classes (declarations_of classes.now) (class_found (declarations_of classes.now)))) }
    ensures reported { IfOk result (λ reported. AreInheritedMethods (declarations_of classes.now) [] reported.0) }
    ensures nearest { IfOk result (λ reported. AreNearest Field classes.now reported.1 × AreNearest Method classes.now reported.2) }
{
    let mut reported = no_methods_inherited(alloc);
    let mut table = SymbolTable::new(alloc, classes);
    note_each(alloc, found, &mut reported, &mut table, order)?;
    let (fields, methods) = table.into_nearest();
    Ok((reported, fields, methods))
}
