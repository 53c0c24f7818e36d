//! The text of a whole file.

ghost use Rattle.std.specs.Prelude.{◌≡◌, ◌<◌, ◌++◌, [], length, reverse, IfOk, OnOk};
ghost use Rattle.scj_show.specs.Symbols.{canonical, text_of_file, own_symbols, symbols_of_part, symbols_of_parts, written};
ghost use Rattle.scj_show.specs.Reread.{IsReadAsFile};
ghost use Rattle.scj_show.specs.Works.{pending, size_of_part, size, work};

use crate::nodes::{put_bare_parts, put_parts};
use crate::parts::{Part, put_each};
use crate::rows::Parts;
use crate::symbols::{put_name, put_number, put_sign, put_text, put_word};
use scj_base::{Memory, NodeId};
use scj_tree::{Node, Program};
use std::alloc::Global;

/// The canonical source of a file: each lexeme of its classes followed by a space, but `;`, `{` and `}` by a line
/// feed. Where the file was read from a source, this text is read as the same tree, up to places.
#[tactic(auto, unfolding(crate::specs::Symbols::text_of_file, crate::specs::Symbols::symbols_of))]
pub fn show(alloc: Global, program: &Program, file: u8) -> Result<Vec<u8>, Memory>
    requires { file < length program.now.files }
    ensures text { IfOk result (λ text. text.items ≡ text_of_file program.now file) }
    ensures read_again { IfOk result (λ text. IsReadAsFile program.now file text.items) }
{
    let count = program.file_count();
    prove!((file as usize) < count);
    let mut text = Vec::new(alloc);
    let mut parts = Parts::new(alloc);
    let mut waiting = Parts::new(alloc);
    put_each(&mut parts, program.classes(file))?;
    turn_over(&mut waiting, &mut parts)?;
    print(alloc, program, &mut waiting, &mut text)?;
    Ok(text)
}

/// Prints what waits, the last part first.
fn print(
    alloc: Global,
    program: &Program,
    waiting: &mut Parts,
    text: &mut Vec<u8>,
) -> Result<(), Memory>
    ensures { OnOk result (text.new.items ≡ text.old.items ++ canonical (pending program.now.nodes waiting.old)) }
{
    let mut parts = Parts::new(alloc);
    while let Some(part) = waiting.pop() {
        print_part(alloc, program, part, &mut parts, text)?;
        turn_over(waiting, &mut parts)?;
    }
    Ok(())
}

/// Moves parts to those that wait, so that the first of them comes first.
fn turn_over(waiting: &mut Parts, parts: &mut Parts) -> Result<(), Memory>
    ensures moved { OnOk result (waiting.new ≡ waiting.old ++ reverse parts.old) }
    ensures empty { OnOk result (parts.new ≡ []) }
{
    while let Some(part) = parts.pop() {
        waiting.push(part)?;
    }
    Ok(())
}

/// Prints a part: a lexeme at once, and of a node its own lexeme, with its parts left to be printed.
fn print_part(
    alloc: Global,
    program: &Program,
    part: Part,
    parts: &mut Parts,
    text: &mut Vec<u8>,
) -> Result<(), Memory>
    requires { parts.old ≡ [] }
    ensures printed { OnOk result
        (text.new.items ++ canonical (symbols_of_parts (written program.now.nodes) parts.new)
        ≡ text.old.items ++ canonical (symbols_of_part (written program.now.nodes) part)) }
    ensures smaller { OnOk result
        (work program.now.nodes parts.new < size_of_part (size program.now.nodes) part) }
{
    match part {
        Part::Whole(id) => print_node(program, id, parts, text)?,
        Part::Bare(id) => print_bare(program, id, parts)?,
        Part::Named(name) => put_name(text, name.bytes())?,
        Part::Quoted(name) => put_text(text, name.bytes())?,
        Part::Word(word) => put_word(text, word)?,
        Part::Sign(sign) => put_sign(text, sign)?,
        Part::Digits(number) => put_number(alloc, text, number)?,
    }
    Ok(())
}

/// Prints a node's own lexeme, with its parts left to be printed.
fn print_node(
    program: &Program,
    id: NodeId,
    parts: &mut Parts,
    text: &mut Vec<u8>,
) -> Result<(), Memory>
    requires { parts.old ≡ [] }
    ensures printed { OnOk result
        (text.new.items ++ canonical (symbols_of_parts (written program.now.nodes) parts.new)
        ≡ text.old.items ++ canonical (symbols_of_part (written program.now.nodes) (Part.Whole id))) }
    ensures smaller { OnOk result
        (work program.now.nodes parts.new < size_of_part (size program.now.nodes) (Part.Whole id)) }
{
    if id.number() >= program.len() {
        return Ok(());
    }
    let node = program.node(id);
    put_own(text, node)?;
    put_parts(parts, node)?;
    Ok(())
}

/// Leaves the bare parts of a node to be printed.
fn print_bare(program: &Program, id: NodeId, parts: &mut Parts) -> Result<(), Memory>
    requires { parts.old ≡ [] }
    ensures printed { OnOk result (symbols_of_parts (written program.now.nodes) parts.new
        ≡ symbols_of_part (written program.now.nodes) (Part.Bare id)) }
    ensures smaller { OnOk result
        (work program.now.nodes parts.new < size_of_part (size program.now.nodes) (Part.Bare id)) }
{
    if id.number() >= program.len() {
        return Ok(());
    }
    put_bare_parts(parts, program.node(id))?;
    Ok(())
}

/// Prints a text, if the node is one.
#[tactic(auto, unfolding(crate::specs::Symbols::own_symbols, crate::specs::Symbols::canonical))]
fn put_own(text: &mut Vec<u8>, node: &Node) -> Result<(), Memory>
    ensures { OnOk result (text.new.items ≡ text.old.items ++ canonical (own_symbols node.now)) }
{
    match node {
        Node::Text { text: inside, .. } => put_text(text, inside.items()),
        _ => Ok(()),
    }
}
