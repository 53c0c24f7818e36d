//! What is wrong with the members of a class.

ghost use Rattle.std.specs.Prelude.{◌≡◌, ◌++◌, flat_map, filter_map, unwrap_or, OnOk};
ghost use Rattle.scj_base.specs.declared.findings.Rule.TheVariants.{C4};
ghost use Rattle.scj_rules.specs.Views.{method_at};
ghost use Rattle.scj_rules.specs.ClassRules.{has_wrong_body};
ghost use Rattle.scj_rules.specs.Contexts.{declarations_of};
ghost use Rattle.method_rows.specs.Methods.{no_method};
ghost use Rattle.class_rules.specs.Members.{broken_by, hiding, member_name};

use crate::overrides::is_wrong_override;
use method_rows::{MethodRef, MethodSource, declared, name};
use node_views::{field_written, is_abstract_method, is_method, method_body};
use scj_base::{Found, Memory, NodeId, Rule};
use scj_rules::{Written, report_if};
use scj_tree::Program;
use symbol_table::SymbolTable;

/// Notes a field that a class above has, too.
#[tactic(auto, unfolding(crate::specs::Members::hiding))]
fn note_hiding(found: &mut Vec<Found>, table: &SymbolTable, field: &Written) -> Result<(), Memory>
    ensures { OnOk result (found.new.items ≡ found.old.items
        ++ hiding (declarations_of table.now.forest) table.now.class field.now) }
{
    let is_above = table.field_above(&field.name).is_some();
    report_if(found, is_above, Rule::C4, field.position)
}

/// Notes the fields that a class above has, too.
#[tactic(auto, unfolding(crate::specs::Members::member_name))]
pub fn note_hidings(
    found: &mut Vec<Found>,
    table: &SymbolTable<'_>,
    members: &[NodeId],
) -> Result<(), Memory>
    ensures { OnOk result (found.new.items ≡ found.old.items ++ flat_map (hiding (declarations_of table.now.forest)
        table.now.class) (filter_map (member_name C4 table.now.forest.nodes) members.now)) }
{
    let mut others = members;
    while let [id, rest @ ..] = others {
        if let Some(field) = field_written(table.classes().program(), *id) {
            note_hiding(found, table, &field)?;
        }
        others = rest;
    }
    Ok(())
}

/// Whether the method at a node has a body and is abstract, or is neither.
fn has_wrong_body(program: &Program, id: NodeId) -> bool
    ensures { result ≡ has_wrong_body (unwrap_or (method_at program.now.nodes id) no_method) }
{
    is_abstract_method(program, id) == method_body(program, id).is_some()
}

/// Notes the method at a node, where it breaks a rule.
#[tactic(auto, unfolding(method_rows::specs::Methods::found_method, method_rows::specs::Methods::method_from))]
fn note_method(
    found: &mut Vec<Found>,
    table: &SymbolTable<'_>,
    id: NodeId,
    rule: Rule,
) -> Result<(), Memory>
    ensures { OnOk result (found.new.items ≡ found.old.items ++ broken_by rule (declarations_of table.now.forest)
        table.now.class (unwrap_or (method_at table.now.forest.nodes id) no_method)) }
{
    let program = table.classes().program();
    let m = MethodRef {
        on: table.class(),
        source: MethodSource::Declared(id),
    };
    let is_wrong = match rule {
        Rule::C6 => match &table.method_above(&name(program, &m)) {
            Some(above) => is_wrong_override(table, &m, above),
            None => false,
        },
        _ => has_wrong_body(program, id),
    };
    if !is_wrong {
        return Ok(());
    }
    found.push(Found {
        pos: declared(program, &m).position,
        rule,
    })?;
    Ok(())
}

/// Notes the methods that break a rule: C6, or else C7.
pub fn note_methods(
    found: &mut Vec<Found>,
    table: &SymbolTable<'_>,
    members: &[NodeId],
    rule: Rule,
) -> Result<(), Memory>
    ensures { OnOk result (found.new.items ≡ found.old.items
        ++ flat_map (broken_by rule (declarations_of table.now.forest) table.now.class)
        (filter_map (method_at table.now.forest.nodes) members.now)) }
{
    let mut others = members;
    while let [id, rest @ ..] = others {
        if is_method(table.classes().program(), *id) {
            note_method(found, table, *id, rule)?;
        }
        others = rest;
    }
    Ok(())
}
