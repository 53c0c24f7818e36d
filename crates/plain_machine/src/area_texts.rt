//! What areas a run needs, as text.

ghost use Rattle.std.specs.Prelude.{◌≡◌, ◌∷◌, ◌++◌, [], IfOk, Some, option_to_list, string_bytes};
ghost use Rattle.scj_rules.specs.Contexts.{declarations_of};
ghost use Rattle.scj_model.specs.declared.events.Event.{Event as EventSeen};
ghost use Rattle.plain_machine.specs.AreaTexts.{halting, lines_from, need_line, row_words, rows_text, scope_name, store_line};
ghost use Rattle.plain_machine.specs.Watched.{HasEndedWith};

use crate::runs::RunEnd;
use crate::watched::Watched;
use area_tables::NeedRow;
use class_rows::ClassTable;
use scj_base::{ClassId, Memory, Name};
use scj_model::Event;
use scope_tree::definition_in;
use std::alloc::Global;
use unit_steps::Setting;

/// The name of a scope.
#[tactic(auto, unfolding(crate::specs::AreaTexts::scope_name))]
fn scope_name(classes: &ClassTable<'_>, scope: u32) -> Name
    ensures { result ≡ scope_name (declarations_of classes.now) scope }
{
    if scope == 0 {
        return Name::new(b"IMMORTAL");
    }
    match definition_in(classes, ClassId::at(scope)) {
        Some(definition) => definition.scope.name,
        None => Name::new(b""),
    }
}

/// What stands behind the name.
#[tactic(auto, unfolding(crate::specs::AreaTexts::row_words))]
fn row_words(alloc: Global, row: NeedRow) -> Result<String, Memory>
    ensures { IfOk result
        (λ words. string_bytes words ≡ row_words row.opened row.declared row.used row.refused) }
{
    let opened = row.opened;
    let declared = row.declared;
    let used = row.used;
    let refused = row.refused;
    let words = format!(in alloc;
        " opened {opened} declared {declared} used {used} refused {refused}\n"
    )?;
    Ok(words)
}

/// The line of the store.
#[tactic(auto, unfolding(crate::specs::AreaTexts::store_line))]
fn store_line(alloc: Global, reserved: u64, store: u64) -> Result<String, Memory>
    ensures { IfOk result (λ line. string_bytes line ≡ store_line reserved store) }
{
    let line = format!(in alloc; "store {reserved} of {store}\n")?;
    Ok(line)
}

/// Puts the line of a scope, if an area of it was opened, behind a text.
#[tactic(auto, unfolding(crate::specs::AreaTexts::need_line))]
fn push_row(
    alloc: Global,
    text: &mut Vec<u8>,
    classes: &ClassTable<'_>,
    scope: u32,
    row: &NeedRow,
) -> Result<(), Memory>
    ensures { IfOk result (λ _. text.new.items
        ≡ text.old.items ++ need_line (declarations_of classes.now) scope row.now) }
{
    if row.opened == 0 {
        return Ok(());
    }
    text.extend_from_slice(scope_name(classes, scope).bytes())?;
    let words = row_words(alloc, *row)?;
    text.extend_from_slice(words.as_bytes())?;
    Ok(())
}

/// The lines of the scopes of which an area was opened.
fn scope_lines(alloc: Global, classes: &ClassTable<'_>, rows: &[NeedRow]) -> Result<Vec<u8>, Memory>
    ensures { IfOk result (λ text. text.items ≡ lines_from (declarations_of classes.now) 0 rows.now) }
{
    let mut text = Vec::new(alloc);
    let mut scope: u32 = 0;
    let mut others = rows;
    while let [row, rest @ ..] = others {
        push_row(alloc, &mut text, classes, scope, row)?;
        let Some(next) = scope.checked_add(1) else {
            return Err(Memory);
        };
        scope = next;
        others = rest;
    }
    Ok(text)
}

/// The lines of the scopes, and that of the store.
pub(crate) fn rows_text(
    alloc: Global,
    setting: Setting<'_>,
    run: &Watched,
) -> Result<Vec<u8>, Memory>
    requires same { setting.classes.now ≡ setting.code.now.program }
    ensures { (last : EventSeen) → HasEndedWith setting.entry.code.now.program setting.entry.plan.now run.now last →
        IfOk result (λ text. text.items ≡ rows_text setting.entry.code.now.program setting.entry.plan.now) }
{
    let mut text = scope_lines(alloc, setting.classes, run.table.rows())?;
    let line = store_line(alloc, run.table.reserved(), setting.plan.store())?;
    text.extend_from_slice(line.as_bytes())?;
    Ok(text)
}

/// The events at the end: of a halted run its fault, and the last one.
#[tactic(auto, unfolding(crate::specs::AreaTexts::halting))]
pub(crate) fn end_events(
    alloc: Global,
    end: RunEnd,
    fault: Option<Event>,
    last: Event,
) -> Result<Vec<Event>, Memory>
    ensures { IfOk result (λ events. events.items
        ≡ option_to_list (halting (Some end) fault) ++ last ∷ []) }
{
    let mut events = Vec::new(alloc);
    if let RunEnd::Halted = end {
        if let Some(fault) = fault {
            events.push(fault)?;
        }
    }
    events.push(last)?;
    Ok(events)
}
