//! What is made by `new`, and arguments.

ghost use Rattle.std.specs.Prelude.{◌≡◌};
ghost use Rattle.parser_machine.specs.Operands.{argument_first_step, argument_start, new_element_step, new_name_step, new_step, no_arguments_step, text_step};
ghost use Rattle.parser_nodes.specs.Reported.{gives, seen};
ghost use Rattle.scj_tree.specs.Lexemes.{a_word};

use crate::closing::{argument_ended, arguments_ended};
use crate::operands::operand_start;
use parser_machine::{Entry, Mode};
use parser_nodes::growing_nodes::Nodes;
use parser_nodes::stacks::Stack;
use parser_nodes::views::View;
use scj_base::vocabulary::{BOOLEAN, INT, LEFT_BRACKET, LEFT_PARENTHESIS, RIGHT_PARENTHESIS};
use scj_base::{Memory, NodeId, Position, SharedName};
use scj_tree::Node;

/// Behind `new` and a word.
#[tactic(auto, unfolding(parser_machine::specs::Operands::new_step))]
pub fn new_word(
    nodes: &mut Nodes,
    stack: &mut Stack,
    word: u8,
    position: Position,
    word_position: Position,
) -> Result<Option<Mode>, Memory>
    ensures step { let awaited = new_step position nodes.old.all stack.old (a_word word word_position) in
        gives result nodes.new.all stack.new awaited ≡ awaited }
    ensures kept { nodes.new.kept ≡ nodes.old.kept }
{
    let node = match word {
        INT => Node::IntType {
            position: word_position,
            is_array: false,
        },
        BOOLEAN => Node::BooleanType {
            position: word_position,
            is_array: false,
        },
        _ => return Ok(None),
    };
    let element = nodes.put(node)?;
    Ok(Some(Mode::NewElement { position, element }))
}

/// Behind `new`.
#[tactic(auto, unfolding(parser_machine::specs::Operands::new_step))]
pub fn new_step(
    nodes: &mut Nodes,
    stack: &mut Stack,
    view: &View,
    position: Position,
) -> Result<Option<Mode>, Memory>
    ensures step { let awaited = new_step position nodes.old.all stack.old (seen view.now) in
        gives result nodes.new.all stack.new awaited ≡ awaited }
    ensures kept { nodes.new.kept ≡ nodes.old.kept }
{
    match view {
        View::Name(name, name_position) => Ok(Some(Mode::NewName {
            position,
            name_position: *name_position,
            name: name.share()?,
        })),
        View::Word(word, word_position) => new_word(nodes, stack, *word, position, *word_position),
        _ => Ok(None),
    }
}

/// Behind `new` and a name.
#[tactic(auto, unfolding(parser_machine::specs::Operands::new_name_step))]
pub fn new_name_step(
    nodes: &mut Nodes,
    stack: &mut Stack,
    view: &View,
    position: Position,
    name_position: Position,
    name: &SharedName,
) -> Result<Option<Mode>, Memory>
    ensures step { let awaited = new_name_step position name_position name.now nodes.old.all stack.old (seen view.now) in
        gives result nodes.new.all stack.new awaited ≡ awaited }
    ensures kept { nodes.new.kept ≡ nodes.old.kept }
{
    let View::Sign(sign, _) = view else {
        return Ok(None);
    };
    if *sign == LEFT_PARENTHESIS {
        stack.push(Entry::NewOpen {
            position,
            name_position,
            name: name.share()?,
        })?;
        stack.push(Entry::ArgumentsOpen {
            list: nodes.empty_list(),
        })?;
        return Ok(Some(Mode::ArgumentFirst));
    }
    if *sign == LEFT_BRACKET {
        let element = nodes.put(Node::ClassType {
            position: name_position,
            name: name.share()?,
            argument: None,
            is_array: false,
        })?;
        stack.push(Entry::LengthOpen { position, element })?;
        return Ok(Some(Mode::Operand));
    }
    Ok(None)
}

/// Behind `new` and `int` or `boolean`.
#[tactic(auto, unfolding(parser_machine::specs::Operands::new_element_step))]
pub fn new_element_step(
    nodes: &mut Nodes,
    stack: &mut Stack,
    view: &View,
    position: Position,
    element: NodeId,
) -> Result<Option<Mode>, Memory>
    ensures step { let awaited = new_element_step position element nodes.old.all stack.old (seen view.now) in
        gives result nodes.new.all stack.new awaited ≡ awaited }
    ensures kept { nodes.new.kept ≡ nodes.old.kept }
{
    if let View::Sign(LEFT_BRACKET, _) = view {
        stack.push(Entry::LengthOpen { position, element })?;
        return Ok(Some(Mode::Operand));
    }
    Ok(None)
}

/// Where an argument is due.
#[tactic(auto, unfolding(parser_machine::specs::Operands::argument_start))]
pub fn argument_start(
    nodes: &mut Nodes,
    stack: &mut Stack,
    view: &View,
) -> Result<Option<Mode>, Memory>
    ensures step { let awaited = argument_start nodes.old.all stack.old (seen view.now) in
        gives result nodes.new.all stack.new awaited ≡ awaited }
    ensures kept { nodes.new.kept ≡ nodes.old.kept }
{
    if let View::Text(bytes, position) = view {
        let text = nodes.text(bytes)?;
        let id = nodes.put(Node::Text {
            position: *position,
            text,
        })?;
        return Ok(Some(Mode::TextRead { id }));
    }
    operand_start(nodes, stack, view)
}

/// Behind the parentheses of a call without arguments.
#[tactic(auto, unfolding(parser_machine::specs::Operands::no_arguments_step))]
pub fn no_arguments_step(nodes: &mut Nodes, stack: &mut Stack) -> Result<Option<Mode>, Memory>
    ensures step { let awaited = no_arguments_step nodes.old.all stack.old in
        gives result nodes.new.all stack.new awaited ≡ awaited }
    ensures kept { nodes.new.kept ≡ nodes.old.kept }
{
    let Some(entry) = stack.pop() else {
        return Ok(None);
    };
    match entry {
        Entry::ArgumentsOpen { .. } => {
            let list = nodes.empty_list();
            arguments_ended(nodes, stack, list)
        }
        _other => Ok(None),
    }
}

/// Behind the parenthesis that opens arguments.
#[tactic(auto, unfolding(parser_machine::specs::Operands::argument_first_step))]
pub fn argument_first_step(
    nodes: &mut Nodes,
    stack: &mut Stack,
    view: &View,
) -> Result<Option<Mode>, Memory>
    ensures step { let awaited = argument_first_step nodes.old.all stack.old (seen view.now) in
        gives result nodes.new.all stack.new awaited ≡ awaited }
    ensures kept { nodes.new.kept ≡ nodes.old.kept }
{
    if let View::Sign(RIGHT_PARENTHESIS, _) = view {
        return no_arguments_step(nodes, stack);
    }
    argument_start(nodes, stack, view)
}

/// Behind a text.
#[tactic(auto, unfolding(parser_machine::specs::Operands::text_step))]
pub fn text_step(
    nodes: &mut Nodes,
    stack: &mut Stack,
    view: &View,
    id: NodeId,
) -> Result<Option<Mode>, Memory>
    ensures step { let awaited = text_step id nodes.old.all stack.old (seen view.now) in
        gives result nodes.new.all stack.new awaited ≡ awaited }
    ensures kept { nodes.new.kept ≡ nodes.old.kept }
{
    let Some(entry) = stack.pop() else {
        return Ok(None);
    };
    match entry {
        Entry::ArgumentsOpen { list } => argument_ended(nodes, stack, view, id, list),
        _other => Ok(None),
    }
}
