//! Members of classes: fields, methods and constructors.

ghost use Rattle.std.specs.Prelude.{◌≡◌};
ghost use Rattle.parser_machine.specs.Members.{field_ended, literal_end_step, literal_minus_step, literal_step, literal_word, member_named_step, member_read, method_named_step, result_step};
ghost use Rattle.parser_nodes.specs.Reported.{gives, seen};

use parser_machine::{Entry, Mode};
use parser_nodes::growing_nodes::Nodes;
use parser_nodes::kinds::MINIMUM;
use parser_nodes::read_members::member_read;
use parser_nodes::stacks::Stack;
use parser_nodes::views::View;
use scj_base::vocabulary::{ASSIGN, FALSE, LEFT_PARENTHESIS, MINUS, NULL, SEMICOLON, TRUE};
use scj_base::{Memory, NodeId, Position, SharedName};
use scj_tree::Node;

/// Behind the type and the name of a member.
#[tactic(auto, unfolding(parser_machine::specs::Members::member_named_step))]
pub fn member_named_step(
    nodes: &mut Nodes,
    stack: &mut Stack,
    view: &View,
    flags: Option<NodeId>,
    declared_type: NodeId,
    position: Position,
    name: &SharedName,
) -> Result<Option<Mode>, Memory>
    ensures step { let awaited = member_named_step flags declared_type position name.now nodes.old.all stack.old
        (seen view.now) in gives result nodes.new.all stack.new awaited ≡ awaited }
    ensures kept { nodes.new.kept ≡ nodes.old.kept }
{
    let View::Sign(sign, sign_position) = view else {
        return Ok(None);
    };
    if *sign == SEMICOLON {
        let id = nodes.put(Node::Field {
            position,
            name: name.share()?,
            flags,
            declared_type,
            equals: None,
            value: None,
        })?;
        return member_read(nodes, stack, id);
    }
    if *sign == ASSIGN {
        stack.push(Entry::FieldOpen {
            flags,
            declared_type,
            position,
            name: name.share()?,
            equals: *sign_position,
        })?;
        return Ok(Some(Mode::LiteralStart));
    }
    if *sign == LEFT_PARENTHESIS {
        stack.push(Entry::MethodOpen {
            flags,
            result_type: declared_type,
            position,
            name: name.share()?,
        })?;
        return Ok(Some(Mode::ParametersFirst {
            position: *sign_position,
        }));
    }
    Ok(None)
}

/// A word where a literal is due.
#[tactic(auto, unfolding(parser_machine::specs::Members::literal_word))]
pub fn literal_word(
    nodes: &mut Nodes,
    stack: &mut Stack,
    word: u8,
    position: Position,
) -> Result<Option<Mode>, Memory>
    ensures step { let awaited = literal_word word position nodes.old.all stack.old in
        gives result nodes.new.all stack.new awaited ≡ awaited }
    ensures kept { nodes.new.kept ≡ nodes.old.kept }
{
    let node = match word {
        TRUE => Node::True { position },
        FALSE => Node::False { position },
        NULL => Node::Null { position },
        _ => return Ok(None),
    };
    let id = nodes.put(node)?;
    Ok(Some(Mode::LiteralDone { id }))
}

/// Behind the `=` of a field.
#[tactic(auto, unfolding(parser_machine::specs::Members::literal_step))]
pub fn literal_step(
    nodes: &mut Nodes,
    stack: &mut Stack,
    view: &View,
) -> Result<Option<Mode>, Memory>
    ensures step { let awaited = literal_step nodes.old.all stack.old (seen view.now) in
        gives result nodes.new.all stack.new awaited ≡ awaited }
    ensures kept { nodes.new.kept ≡ nodes.old.kept }
{
    match view {
        View::Word(word, position) => literal_word(nodes, stack, *word, *position),
        View::Number(value, position) => {
            if *value == MINIMUM {
                return Ok(None);
            }
            let id = nodes.put(Node::Number {
                position: *position,
                value: *value,
                is_negative: false,
            })?;
            Ok(Some(Mode::LiteralDone { id }))
        }
        View::Sign(sign, position) => {
            if *sign == MINUS {
                return Ok(Some(Mode::LiteralMinus {
                    position: *position,
                }));
            }
            Ok(None)
        }
        _ => Ok(None),
    }
}

/// Behind the `-` of a literal.
#[tactic(auto, unfolding(parser_machine::specs::Members::literal_minus_step))]
pub fn literal_minus_step(
    nodes: &mut Nodes,
    stack: &mut Stack,
    view: &View,
    position: Position,
) -> Result<Option<Mode>, Memory>
    ensures step { let awaited = literal_minus_step position nodes.old.all stack.old (seen view.now) in
        gives result nodes.new.all stack.new awaited ≡ awaited }
    ensures kept { nodes.new.kept ≡ nodes.old.kept }
{
    let View::Number(value, _) = view else {
        return Ok(None);
    };
    let id = nodes.put(Node::Number {
        position,
        value: *value,
        is_negative: true,
    })?;
    Ok(Some(Mode::LiteralDone { id }))
}

/// Behind a field with a value.
#[tactic(auto, unfolding(parser_machine::specs::Members::field_ended))]
pub fn field_ended(nodes: &mut Nodes, stack: &mut Stack, id: NodeId) -> Result<Option<Mode>, Memory>
    ensures step { let awaited = field_ended id nodes.old.all stack.old in
        gives result nodes.new.all stack.new awaited ≡ awaited }
    ensures kept { nodes.new.kept ≡ nodes.old.kept }
{
    let Some(entry) = stack.pop() else {
        return Ok(None);
    };
    match entry {
        Entry::FieldOpen {
            flags,
            declared_type,
            position,
            name,
            equals,
        } => {
            let id = nodes.put(Node::Field {
                position,
                name,
                flags,
                declared_type,
                equals: Some(equals),
                value: Some(id),
            })?;
            member_read(nodes, stack, id)
        }
        _other => Ok(None),
    }
}

/// Behind a literal.
#[tactic(auto, unfolding(parser_machine::specs::Members::literal_end_step))]
pub fn literal_end_step(
    nodes: &mut Nodes,
    stack: &mut Stack,
    view: &View,
    id: NodeId,
) -> Result<Option<Mode>, Memory>
    ensures step { let awaited = literal_end_step id nodes.old.all stack.old (seen view.now) in
        gives result nodes.new.all stack.new awaited ≡ awaited }
    ensures kept { nodes.new.kept ≡ nodes.old.kept }
{
    let View::Sign(sign, _) = view else {
        return Ok(None);
    };
    if *sign == SEMICOLON {
        return field_ended(nodes, stack, id);
    }
    Ok(None)
}

/// Behind `void` or `long`.
#[tactic(auto, unfolding(parser_machine::specs::Members::result_step))]
pub fn result_step(
    nodes: &mut Nodes,
    stack: &mut Stack,
    view: &View,
    flags: Option<NodeId>,
    result_type: NodeId,
) -> Result<Option<Mode>, Memory>
    ensures step { let awaited = result_step flags result_type nodes.old.all stack.old (seen view.now) in
        gives result nodes.new.all stack.new awaited ≡ awaited }
    ensures kept { nodes.new.kept ≡ nodes.old.kept }
{
    let View::Name(name, position) = view else {
        return Ok(None);
    };
    Ok(Some(Mode::MethodNamed {
        flags,
        result_type,
        position: *position,
        name: name.share()?,
    }))
}

/// Behind the name of a method without a value.
#[tactic(auto, unfolding(parser_machine::specs::Members::method_named_step))]
pub fn method_named_step(
    nodes: &mut Nodes,
    stack: &mut Stack,
    view: &View,
    flags: Option<NodeId>,
    result_type: NodeId,
    position: Position,
    name: &SharedName,
) -> Result<Option<Mode>, Memory>
    ensures step { let awaited = method_named_step flags result_type position name.now nodes.old.all stack.old
        (seen view.now) in gives result nodes.new.all stack.new awaited ≡ awaited }
    ensures kept { nodes.new.kept ≡ nodes.old.kept }
{
    let View::Sign(sign, sign_position) = view else {
        return Ok(None);
    };
    if *sign != LEFT_PARENTHESIS {
        return Ok(None);
    }
    stack.push(Entry::MethodOpen {
        flags,
        result_type,
        position,
        name: name.share()?,
    })?;
    Ok(Some(Mode::ParametersFirst {
        position: *sign_position,
    }))
}
