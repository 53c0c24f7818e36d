//! The one safelet of a program.

ghost use Rattle.std.specs.Prelude.{◌≡◌, ◌++◌, ◌<◌, option_map, OnOk, length};
ghost use Rattle.scj_rules.specs.ClassRules.{c8};
ghost use Rattle.scj_rules.specs.Contexts.{declarations_of};
ghost use Rattle.class_rules.specs.Parts.{written_class};
ghost use Rattle.class_rules.specs.Safelets.{safelet_at};

use crate::parts::{ClassParts, parts_of};
use class_rows::ClassTable;
use scj_base::{ClassId, Found, Memory, Position, Rule};
use scj_rules::report_if;

/// A class, where it is a safelet of the program.
#[tactic(auto, unfolding(crate::specs::Safelets::safelet_at))]
fn safelet_at<'a>(classes: &ClassTable<'a>, class: ClassId) -> Option<ClassParts<'a>>
    requires { class < length (declarations_of classes.now).classes }
    ensures { option_map (written_class classes.now.nodes) result ≡ safelet_at (declarations_of classes.now) class }
{
    let Some(c) = parts_of(classes, class) else {
        return None;
    };
    if c.modifiers.is_abstract {
        return None;
    }
    if classes.is_safelet_written(class) {
        Some(c)
    } else {
        None
    }
}

/// Notes each safelet behind the first one, or that there is none.
#[tactic(auto, using(crate::proofs::SafeletLemmas::all_left, crate::proofs::SafeletLemmas::all_noted, crate::proofs::SafeletLemmas::no_safelet, crate::proofs::SafeletLemmas::one_safelet))]
pub fn note_c8(found: &mut Vec<Found>, classes: &ClassTable<'_>) -> Result<(), Memory>
    ensures { OnOk result (found.new.items ≡ found.old.items ++ c8 (declarations_of classes.now)) }
{
    let count = classes.class_count();
    let mut is_seen = false;
    for number in 0..count {
        if let Some(c) = safelet_at(classes, ClassId::at(number)) {
            report_if(found, is_seen, Rule::C8, c.position)?;
            is_seen = true;
        }
    }
    let first = Position {
        file: 0,
        line: 1,
        col: 1,
    };
    report_if(found, !is_seen, Rule::C8, first)?;
    Ok(())
}
