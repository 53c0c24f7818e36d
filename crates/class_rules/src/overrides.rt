//! Methods that stand in the place of others.

ghost use Rattle.std.specs.Prelude.{◌≡◌};
ghost use Rattle.scj_rules.specs.ClassRules.{narrower_kind, is_narrower, has_types_of, is_wrong_override, stays_open};
ghost use Rattle.scj_rules.specs.Contexts.{declarations_of};
ghost use Rattle.method_rows.specs.Methods.{found_method};

use crate::types::{class_written, have_same_types, is_same_type};
use class_rows::ClassTable;
use method_rows::{MethodRef, builtin, declared, is_overridable, is_static, name, result_type};
use scj_base::ids::{MISSION, MISSION_SEQUENCER};
use scj_base::{ClassId, Name};
use scj_builtins::FRAMEWORK_CLASS_COUNT;
use scj_rules::WrittenType;
use symbol_table::SymbolTable;

/// The kind under which the framework lets the result of this name be narrower in the class.
#[tactic(auto, unfolding(scj_rules::specs::ClassRules::narrower_kind))]
fn narrower_kind(table: &SymbolTable<'_>, name: &Name) -> Option<ClassId>
    ensures { result ≡ narrower_kind (declarations_of table.now.forest) table.now.class name.now }
{
    let classes = table.classes();
    let kind = match &table.framework_row_named(name) {
        Some(row) => class_written(classes, &result_type(classes.program(), row))?,
        None => return None,
    };
    if kind == MISSION_SEQUENCER || kind == MISSION {
        Some(kind)
    } else {
        None
    }
}

/// Whether a result is of a user class under a kind and under the class of another result.
fn is_narrower(
    classes: &ClassTable<'_>,
    kind: ClassId,
    written: &WrittenType,
    above: &WrittenType,
) -> bool
    ensures { result ≡ is_narrower (declarations_of classes.now) kind written.now above.now }
{
    let Some(own) = class_written(classes, written) else {
        return false;
    };
    let Some(other) = class_written(classes, above) else {
        return false;
    };
    own.number() >= FRAMEWORK_CLASS_COUNT && classes.is_sub(own, kind) && classes.is_sub(own, other)
}

/// Whether a method has the types of the one above; its result may be a narrower one that the framework allows.
#[tactic(auto, unfolding(scj_rules::specs::ClassRules::has_types_of, scj_rules::specs::ClassRules::is_result_of))]
fn has_types_of(table: &SymbolTable<'_>, m: &MethodRef, above: &MethodRef) -> bool
    ensures { result ≡ has_types_of (declarations_of table.now.forest) table.now.class
        (found_method table.now.forest.nodes m.now).method (found_method table.now.forest.nodes above.now).method }
{
    let program = table.classes().program();
    if !have_same_types(program, m, above) {
        return false;
    }
    let written = result_type(program, m);
    let other = result_type(program, above);
    if is_same_type(&written, &other) {
        return true;
    }
    match narrower_kind(table, &name(program, m)) {
        Some(kind) => is_narrower(table.classes(), kind, &written, &other),
        None => false,
    }
}

/// Whether a method of a class may not stand in the place of the one above.
pub fn is_wrong_override(table: &SymbolTable<'_>, m: &MethodRef, above: &MethodRef) -> bool
    ensures { result ≡ is_wrong_override (declarations_of table.now.forest) table.now.class
        (found_method table.now.forest.nodes m.now).method (found_method table.now.forest.nodes above.now).method }
{
    let program = table.classes().program();
    if !is_overridable(program, above) {
        return true;
    }
    if is_static(program, m) != is_static(program, above) {
        return true;
    }
    !has_types_of(table, m, above)
}

/// Whether a method leaves an abstract one open, in whose place it stands in a class.
pub fn stays_open(table: &SymbolTable<'_>, m: &MethodRef, instead: &MethodRef) -> bool
    ensures { result ≡ stays_open (declarations_of table.now.forest) table.now.class
        (found_method table.now.forest.nodes m.now).method (found_method table.now.forest.nodes instead.now).method }
{
    let program = table.classes().program();
    let own = declared(program, instead);
    if own.modifiers.is_abstract {
        return true;
    }
    if builtin(m).is_none() {
        return false;
    }
    own.modifiers.is_static || !has_types_of(table, instead, m)
}
