//! The text of the bounds of a program's private memories.

ghost use Rattle.std.specs.Prelude.{◌≡◌, map, string_bytes, flat_map, IfOk};
ghost use Rattle.scj_rules.specs.Contexts.{declarations_of};
ghost use Rattle.scj_cli.specs.BoundLists.{answer_text, bound_list, cause_word, class_name, need_line, row_line};
ghost use Rattle.memory_needs.specs.declared.answers.BoundAnswer.TheVariants.{No};

use crate::reports::file_name;
use class_rows::ClassTable;
use memory_needs::{BoundAnswer, BoundRow, Bounds, NoBound};
use scj_base::{ClassId, Position};
use std::alloc::{AllocError, Global};

/// The lines of the rows, in their order, and the line of the store.
#[tactic(auto, unfolding(crate::specs::BoundLists::bound_list))]
pub fn bound_list(
    alloc: Global,
    classes: &ClassTable<'_>,
    names: &[String],
    bounds: &Bounds,
) -> Result<Vec<u8>, AllocError>
    ensures { IfOk result
        (λ text. text.items ≡ bound_list (declarations_of classes.now) (map string_bytes names.now)
        bounds.now.rows bounds.now.need) }
{
    let mut text = row_lines(alloc, classes, names, &bounds.rows.0)?;
    let end = need_line(alloc, bounds.need)?;
    text.extend_from_slice(end.as_bytes())?;
    Ok(text)
}

fn row_lines(
    alloc: Global,
    classes: &ClassTable<'_>,
    names: &[String],
    rows: &[BoundRow],
) -> Result<Vec<u8>, AllocError>
    ensures { IfOk result
        (λ text. text.items ≡ flat_map (row_line (declarations_of classes.now) (map string_bytes names.now))
        rows.now) }
{
    let mut text = Vec::new(alloc);
    for row in rows {
        let line = row_line(alloc, classes, names, *row)?;
        text.extend_from_slice(&line)?;
    }
    Ok(text)
}

fn row_line(
    alloc: Global,
    classes: &ClassTable<'_>,
    names: &[String],
    row: BoundRow,
) -> Result<Vec<u8>, AllocError>
    ensures { IfOk result
        (λ line. line.items ≡ row_line (declarations_of classes.now) (map string_bytes names.now) row) }
{
    let mut line = class_name(alloc, classes, row.handler)?;
    let answer = answer_text(alloc, names, row.answer)?;
    let rest = format!(in alloc; " {answer}\n")?;
    line.extend_from_slice(rest.as_bytes())?;
    Ok(line)
}

fn class_name(
    alloc: Global,
    classes: &ClassTable<'_>,
    class: ClassId,
) -> Result<Vec<u8>, AllocError>
    ensures { IfOk result (λ name. name.items ≡ class_name (declarations_of classes.now) class) }
{
    match classes.name(class) {
        Some(name) => name.bytes().to_vec(alloc),
        None => Ok(Vec::new(alloc)),
    }
}

fn answer_text(alloc: Global, names: &[String], answer: BoundAnswer) -> Result<String, AllocError>
    ensures { IfOk result (λ text. string_bytes text ≡ answer_text (map string_bytes names.now) answer) }
{
    match answer {
        BoundAnswer::Yes { bytes } => format!(in alloc; "yes {bytes}"),
        BoundAnswer::No { cause, at } => refusal_text(alloc, names, cause, at),
    }
}

fn refusal_text(
    alloc: Global,
    names: &[String],
    cause: NoBound,
    at: Position,
) -> Result<String, AllocError>
    ensures { IfOk result
        (λ text. string_bytes text ≡ answer_text (map string_bytes names.now) (No cause at)) }
{
    let word = cause_word(cause);
    let file = file_name(names, at.file);
    let line = at.line;
    let col = at.col;
    format!(in alloc; "no {word} {file}:{line}:{col}")
}

fn cause_word(cause: NoBound) -> &'static str
    ensures { result.now ≡ cause_word cause }
{
    match cause {
        NoBound::Recursion => "Recursion",
        NoBound::NotLiteral => "NotLiteral",
        NoBound::OuterArea => "OuterArea",
        NoBound::NewInLoop => "NewInLoop",
        NoBound::TooSmall => "TooSmall",
    }
}

fn need_line(alloc: Global, need: Option<u64>) -> Result<String, AllocError>
    ensures { IfOk result (λ line. string_bytes line ≡ need_line need) }
{
    match need {
        Some(bytes) => format!(in alloc; "need {bytes}\n"),
        None => String::from_str(alloc, "need none\n"),
    }
}
