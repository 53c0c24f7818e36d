//! What is wrong with the header of a class.

ghost use Rattle.std.specs.Prelude.{◌≡◌, ◌++◌, ◌<◌, Some, length, OnOk};
ghost use Rattle.scj_rules.specs.Views.{class_at};
ghost use Rattle.scj_rules.specs.ClassRules.{c1, c2, c3, c10};
ghost use Rattle.scj_rules.specs.Contexts.{declarations_of};
ghost use Rattle.class_rules.specs.Parts.{written_class};

use crate::parts::ClassParts;
use class_rows::ClassTable;
use node_views::named_super;
use scj_base::{ClassId, Found, Memory, Rule};
use scj_rules::report_if;
use std::alloc::Global;

/// Notes the names in the header of a class that are forbidden there.
#[tactic(auto, unfolding(scj_rules::specs::ClassRules::c10, class_headers::specs::Supers::forbidden_in))]
pub fn note_c10(
    alloc: Global,
    found: &mut Vec<Found>,
    classes: &ClassTable<'_>,
    c: &ClassParts<'_>,
) -> Result<(), Memory>
    requires { class_at classes.now.nodes c.now.node ≡ Some (written_class classes.now.nodes c.now) }
    ensures { OnOk result (found.new.items ≡ found.old.items
        ++ c10 (declarations_of classes.now) (written_class classes.now.nodes c.now)) }
{
    let forbidden = classes.written().forbidden_supers(alloc, c.node)?;
    let mut others = forbidden.as_slice();
    while let [name, rest @ ..] = others {
        found.push(Found {
            pos: name.position,
            rule: Rule::C10,
        })?;
        others = rest;
    }
    Ok(())
}

/// Notes a class that has the name of an earlier one, the names in its header that no class has, and a class whose
/// superclasses come back to it.
#[tactic(auto, unfolding(scj_rules::specs::ClassRules::c1, scj_rules::specs::ClassRules::c2, scj_rules::specs::ClassRules::c3))]
pub fn note_header(
    found: &mut Vec<Found>,
    classes: &ClassTable<'_>,
    class: ClassId,
    c: &ClassParts<'_>,
) -> Result<(), Memory>
    requires { class < length (declarations_of classes.now).classes }
    ensures { OnOk result (found.new.items ≡ found.old.items
        ++ (c1 (declarations_of classes.now) class (written_class classes.now.nodes c.now)
        ++ (c2 (declarations_of classes.now) (written_class classes.now.nodes c.now)
        ++ c3 (declarations_of classes.now) class (written_class classes.now.nodes c.now)))) }
{
    let is_taken = match classes.class_of(&c.name) {
        Some(first) => first.number() < class.number(),
        None => false,
    };
    report_if(found, is_taken, Rule::C1, c.position)?;
    if let Some(written) = &c.extends {
        let is_unknown = classes.class_of(&written.name).is_none();
        report_if(found, is_unknown, Rule::C2, written.position)?;
    }
    let mut others = c.interfaces;
    while let [id, rest @ ..] = others {
        if let Some(written) = named_super(classes.program(), *id) {
            let is_unknown = classes.class_of(&written.name).is_none();
            report_if(found, is_unknown, Rule::C2, written.position)?;
        }
        others = rest;
    }
    report_if(found, classes.is_cyclic(class), Rule::C3, c.position)?;
    Ok(())
}
