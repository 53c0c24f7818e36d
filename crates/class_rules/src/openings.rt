//! Abstract methods that a class leaves open.

ghost use Rattle.std.specs.Prelude.{◌≡◌, slice_get};
ghost use Rattle.std.specs.List.{list_any};
ghost use Rattle.scj_builtins.specs.Framework.{framework_methods};
ghost use Rattle.scj_rules.specs.Words.{holds};
ghost use Rattle.scj_rules.specs.ClassRules.{is_left_open, abstract_methods};
ghost use Rattle.scj_rules.specs.Contexts.{declarations_of};
ghost use Rattle.class_rules.specs.Members.{is_row_left};

use crate::overrides::stays_open;
use method_rows::{MethodRef, MethodSource};
use scj_base::MethodId;
use scj_builtins::{FRAMEWORK_METHOD_COUNT, framework_method};
use symbol_table::SymbolTable;

/// Whether a class leaves a method of the framework open, where it is an abstract one that the class has.
#[tactic(auto, unfolding(method_rows::specs::Methods::found_method, method_rows::specs::Methods::method_from, method_rows::specs::Methods::framework_numbered, scj_rules::specs::Classes::framework_method, scj_rules::specs::ClassRules::is_left_open))]
fn leaves_row(table: &SymbolTable<'_>, number: MethodId) -> bool
    ensures { result ≡ holds (slice_get framework_methods number)
        (is_row_left (declarations_of table.now.forest) table.now.class) }
{
    match &framework_method(number) {
        Some(row) => {
            if !row.is_abstract || !table.classes().is_sub(table.class(), row.on) {
                return false;
            }
            let m = MethodRef {
                on: row.on,
                source: MethodSource::Framework(number),
            };
            match &table.method_named(&row.name) {
                Some(instead) => stays_open(table, &m, instead),
                None => false,
            }
        }
        None => false,
    }
}

/// Whether a class leaves an abstract method open: its own or one of the user classes above, or one of the framework's.
#[tactic(auto, using(crate::proofs::OpeningLemmas::leaves_open_split, crate::proofs::OpeningLemmas::rows_from, crate::proofs::OpeningLemmas::rows_end))]
pub fn leaves_open(table: &SymbolTable<'_>) -> bool
    ensures { result ≡ list_any (is_left_open (declarations_of table.now.forest) table.now.class)
        (abstract_methods (declarations_of table.now.forest).classes table.now.class) }
{
    if table.leaves_declared_open() {
        return true;
    }
    for number in 0..FRAMEWORK_METHOD_COUNT {
        if leaves_row(table, MethodId::at(number)) {
            return true;
        }
    }
    false
}
