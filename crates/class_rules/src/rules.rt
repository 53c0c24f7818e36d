//! The rules at one class.

ghost use Rattle.std.specs.Prelude.{◌≡◌, ◌++◌, ◌<◌, Some, length, OnOk};
ghost use Rattle.scj_rules.specs.Views.{class_at};
ghost use Rattle.scj_rules.specs.ClassRules.{c4, c5, c6, c7, c10};
ghost use Rattle.scj_rules.specs.Contexts.{declarations_of};
ghost use Rattle.class_rules.specs.Parts.{class_found, row_of, written_class};

use crate::headers::{note_c10, note_header};
use crate::members::{note_hidings, note_methods};
use crate::openings::leaves_open;
use crate::parts::ClassParts;
use crate::repeats::note_repeats;
use scj_base::{Found, Memory, Rule};
use scj_builtins::FRAMEWORK_CLASS_COUNT;
use scj_rules::report_if;
use std::alloc::Global;
use symbol_table::SymbolTable;

/// Notes the fields of which an earlier one of the class or one above has the name.
#[tactic(auto, using(crate::proofs::RepeatLemmas::c4_named))]
fn note_c4(
    alloc: Global,
    found: &mut Vec<Found>,
    table: &SymbolTable<'_>,
    c: &ClassParts<'_>,
) -> Result<(), Memory>
    ensures { OnOk result (found.new.items ≡ found.old.items ++ c4 (declarations_of table.now.forest) table.now.class
        (row_of table.now.forest c.now)) }
{
    note_repeats(alloc, found, table.classes().program(), c.members, Rule::C4)?;
    note_hidings(found, table, c.members)?;
    Ok(())
}

/// Notes a concrete class that leaves an abstract method open, and the methods whose body is missing or too much.
#[tactic(auto, unfolding(scj_rules::specs::ClassRules::c7, scj_rules::specs::Classes::user_row, scj_rules::specs::Contexts::declarations_of))]
fn note_c7(found: &mut Vec<Found>, table: &SymbolTable, c: &ClassParts) -> Result<(), Memory>
    ensures { OnOk result (found.new.items ≡ found.old.items ++ c7 (declarations_of table.now.forest) table.now.class
        (written_class table.now.forest.nodes c.now) (row_of table.now.forest c.now)) }
{
    let is_open = !c.modifiers.is_abstract && leaves_open(table);
    report_if(found, is_open, Rule::C7, c.position)?;
    note_methods(found, table, c.members, Rule::C7)?;
    Ok(())
}

/// Notes what is wrong with the methods of a class, and what is forbidden in its header.
#[tactic(auto, unfolding(scj_rules::specs::ClassRules::c5, scj_rules::specs::ClassRules::c6, scj_rules::specs::Classes::user_row, scj_rules::specs::Contexts::declarations_of, crate::specs::Members::left_twice, crate::specs::Members::member_name))]
fn note_inside(
    alloc: Global,
    found: &mut Vec<Found>,
    table: &SymbolTable<'_>,
    c: &ClassParts<'_>,
) -> Result<(), Memory>
    requires { class_at table.now.forest.nodes c.now.node ≡ Some (written_class table.now.forest.nodes c.now) }
    ensures { OnOk result (found.new.items ≡ found.old.items
        ++ (c5 (declarations_of table.now.forest) (written_class table.now.forest.nodes c.now)
        ++ (c6 (declarations_of table.now.forest) table.now.class (row_of table.now.forest c.now)
        ++ (c7 (declarations_of table.now.forest) table.now.class (written_class table.now.forest.nodes c.now)
        (row_of table.now.forest c.now)
        ++ c10 (declarations_of table.now.forest) (written_class table.now.forest.nodes c.now))))) }
{
    let classes = table.classes();
    note_repeats(alloc, found, classes.program(), c.members, Rule::C5)?;
    note_methods(found, table, c.members, Rule::C6)?;
    note_c7(found, table, c)?;
    note_c10(alloc, found, classes, c)?;
    Ok(())
}

/// Notes what is broken at the class at which the table stands; among it the 257th class and each later one, and a class
/// whose objects have too many instance fields.
#[tactic(auto, unfolding(scj_rules::specs::ClassRules::class_breaks, scj_rules::specs::LimitRules::class_limits, scj_rules::specs::LimitRules::k1, scj_rules::specs::LimitRules::k4))]
pub fn note_rules(
    alloc: Global,
    found: &mut Vec<Found>,
    table: &SymbolTable<'_>,
    c: &ClassParts<'_>,
) -> Result<(), Memory>
    requires within { table.now.class < length (declarations_of table.now.forest).classes }
    requires there { class_at table.now.forest.nodes c.now.node ≡ Some (written_class table.now.forest.nodes c.now) }
    ensures { OnOk result (found.new.items ≡ found.old.items ++ class_found (declarations_of table.now.forest)
        table.now.class (row_of table.now.forest c.now) (written_class table.now.forest.nodes c.now)) }
{
    note_header(found, table.classes(), table.class(), c)?;
    note_c4(alloc, found, table, c)?;
    note_inside(alloc, found, table, c)?;
    let is_late = table.class().number() >= FRAMEWORK_CLASS_COUNT + 256;
    report_if(found, is_late, Rule::K1, c.position)?;
    let has_many = table.instance_field_count() > 64;
    report_if(found, has_many, Rule::K4, c.position)?;
    Ok(())
}
