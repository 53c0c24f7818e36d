//! Operands: what they begin with, and names, calls and brackets behind them.

ghost use Rattle.std.specs.Prelude.{◌≡◌, ◌++◌};
ghost use Rattle.parser_machine.specs.Operands.{closed_name_step, compound_step, dot_name_step, dot_step, minus_step, name_sign_step, name_step, opened_name_step, opened_step, operand_sign, operand_start, operand_word, post_ended, post_step, stepping_step, target_name_step};
ghost use Rattle.parser_nodes.specs.Reported.{gives, seen};

use crate::closing::{closed, target_ended};
use crate::levels::{compound, stepping};
use parser_machine::{Entry, Mode};
use parser_nodes::growing_nodes::Nodes;
use parser_nodes::kinds::{MINIMUM, indexable, is_unary1_start};
use parser_nodes::stacks::Stack;
use parser_nodes::views::View;
use scj_base::vocabulary::{
    DOT, FALSE, LEFT_BRACKET, LEFT_PARENTHESIS, MINUS, NEW, NOT, NULL, RIGHT_PARENTHESIS, THIS,
    TILDE, TRUE,
};
use scj_base::{Memory, NodeId, Position, SharedName};
use scj_tree::{Node, PostKind};

/// Behind a whole expression of names, calls and brackets, of which `place` is the begin.
#[tactic(auto, using(crate::proofs::Tops::not_due_behind), unfolding(parser_machine::specs::Operands::post_ended))]
pub fn post_ended(
    nodes: &mut Nodes,
    stack: &mut Stack,
    view: &View,
    kind: PostKind,
    position: Position,
    id: NodeId,
) -> Result<Option<Mode>, Memory>
    ensures step { let awaited = post_ended kind position id nodes.old.all stack.old (seen view.now) in
        gives result nodes.new.all stack.new awaited ≡ awaited }
    ensures kept { nodes.new.kept ≡ nodes.old.kept }
{
    if stack.pop_target() {
        return target_ended(nodes, stack, view, kind, position, id);
    }
    closed(nodes, stack, view, id)
}

/// Behind an expression of names, calls and brackets.
#[tactic(auto, unfolding(parser_machine::specs::Operands::post_step, scj_tree::specs::Terminals::indexable))]
pub fn post_step(
    nodes: &mut Nodes,
    stack: &mut Stack,
    view: &View,
    kind: PostKind,
    position: Position,
    id: NodeId,
) -> Result<Option<Mode>, Memory>
    ensures step { let awaited = post_step kind position id nodes.old.all stack.old (seen view.now) in
        gives result nodes.new.all stack.new awaited ≡ awaited }
    ensures kept { nodes.new.kept ≡ nodes.old.kept }
{
    if let View::Sign(sign, sign_position) = view {
        if *sign == DOT {
            return Ok(Some(Mode::Dot { object: id }));
        }
        if *sign == LEFT_BRACKET && indexable(kind) {
            stack.push(Entry::IndexOpen {
                position: *sign_position,
                array: id,
            })?;
            return Ok(Some(Mode::Operand));
        }
        return post_ended(nodes, stack, view, kind, position, id);
    }
    post_ended(nodes, stack, view, kind, position, id)
}

/// Behind a dot.
#[tactic(auto, unfolding(parser_machine::specs::Operands::dot_step))]
pub fn dot_step(
    nodes: &mut Nodes,
    stack: &mut Stack,
    view: &View,
    object: NodeId,
) -> Result<Option<Mode>, Memory>
    ensures step { let awaited = dot_step object nodes.old.all stack.old (seen view.now) in
        gives result nodes.new.all stack.new awaited ≡ awaited }
    ensures kept { nodes.new.kept ≡ nodes.old.kept }
{
    let View::Name(name, position) = view else {
        return Ok(None);
    };
    Ok(Some(Mode::DotName {
        object,
        position: *position,
        name: name.share()?,
    }))
}

/// Behind a dot and a name.
#[tactic(auto, unfolding(parser_machine::specs::Operands::dot_name_step))]
pub fn dot_name_step(
    nodes: &mut Nodes,
    stack: &mut Stack,
    view: &View,
    object: NodeId,
    position: Position,
    name: &SharedName,
) -> Result<Option<Mode>, Memory>
    ensures step { let awaited = dot_name_step object position name.now nodes.old.all stack.old (seen view.now) in
        gives result nodes.new.all stack.new awaited ≡ awaited }
    ensures kept { nodes.new.kept ≡ nodes.old.kept }
{
    if let View::Sign(LEFT_PARENTHESIS, _) = view {
        stack.push(Entry::CallOpen {
            position,
            name: name.share()?,
            object: Some(object),
        })?;
        stack.push(Entry::ArgumentsOpen {
            list: nodes.empty_list(),
        })?;
        return Ok(Some(Mode::ArgumentFirst));
    }
    let id = nodes.put(Node::FieldAccess {
        position,
        name: name.share()?,
        object,
    })?;
    post_step(nodes, stack, view, PostKind::Variable, position, id)
}

/// Behind a name and the sign of a compound assignment.
#[tactic(auto, unfolding(parser_machine::specs::Operands::compound_step))]
pub fn compound_step(
    nodes: &mut Nodes,
    stack: &mut Stack,
    position: Position,
    name: &SharedName,
    sign_position: Position,
    operator: u8,
) -> Result<Option<Mode>, Memory>
    ensures step { let awaited = compound_step position name.now sign_position operator nodes.old.all stack.old in
        gives result nodes.new.all stack.new awaited ≡ awaited }
    ensures kept { nodes.new.kept ≡ nodes.old.kept }
{
    let target = nodes.put(Node::SimpleName {
        position,
        name: name.share()?,
    })?;
    let left = nodes.put(Node::SimpleName {
        position,
        name: name.share()?,
    })?;
    stack.push(Entry::CompoundValue {
        position: sign_position,
        operator,
        target,
        left,
    })?;
    Ok(Some(Mode::Operand))
}

/// Behind a name and `++` or `--`.
#[tactic(auto, unfolding(parser_machine::specs::Operands::stepping_step))]
pub fn stepping_step(
    nodes: &mut Nodes,
    stack: &mut Stack,
    position: Position,
    name: &SharedName,
    sign_position: Position,
    operator: u8,
) -> Result<Option<Mode>, Memory>
    ensures step { let awaited = stepping_step position name.now sign_position operator nodes.old.all stack.old in
        gives result nodes.new.all stack.new awaited ≡ awaited }
    ensures kept { nodes.new.kept ≡ nodes.old.kept }
{
    let target = nodes.put(Node::SimpleName {
        position,
        name: name.share()?,
    })?;
    let left = nodes.put(Node::SimpleName {
        position,
        name: name.share()?,
    })?;
    let right = nodes.put(Node::Number {
        position: sign_position,
        value: 1,
        is_negative: false,
    })?;
    let value = nodes.put(Node::Binary {
        position: sign_position,
        operator,
        left,
        right,
    })?;
    let id = nodes.put(Node::Assign {
        position: sign_position,
        target,
        value,
    })?;
    Ok(Some(Mode::Assigned { id }))
}

/// Behind a name where a target is due, and a sign, which is the lexeme.
#[tactic(auto, unfolding(parser_machine::specs::Operands::target_name_step))]
pub fn target_name_step(
    nodes: &mut Nodes,
    stack: &mut Stack,
    position: Position,
    name: &SharedName,
    sign: u8,
    sign_position: Position,
) -> Result<Option<Mode>, Memory>
    ensures step { let awaited = target_name_step position name.now nodes.old.all stack.old sign sign_position in
        gives result nodes.new.all stack.new awaited ≡ awaited }
    ensures kept { nodes.new.kept ≡ nodes.old.kept }
{
    if let Some(operator) = compound(sign) {
        return compound_step(nodes, stack, position, name, sign_position, operator);
    }
    if let Some(operator) = stepping(sign) {
        return stepping_step(nodes, stack, position, name, sign_position, operator);
    }
    stack.push(Entry::Target)?;
    let id = nodes.put(Node::SimpleName {
        position,
        name: name.share()?,
    })?;
    let view = View::Sign(sign, sign_position);
    post_step(nodes, stack, &view, PostKind::Variable, position, id)
}

/// Behind a name and a sign, which is the lexeme.
#[tactic(auto, using(crate::proofs::Tops::not_due_at_name), unfolding(parser_machine::specs::Operands::name_sign_step))]
pub fn name_sign_step(
    nodes: &mut Nodes,
    stack: &mut Stack,
    position: Position,
    name: &SharedName,
    sign: u8,
    sign_position: Position,
) -> Result<Option<Mode>, Memory>
    ensures step { let awaited = name_sign_step position name.now nodes.old.all stack.old sign sign_position in
        gives result nodes.new.all stack.new awaited ≡ awaited }
    ensures kept { nodes.new.kept ≡ nodes.old.kept }
{
    if stack.pop_target() {
        return target_name_step(nodes, stack, position, name, sign, sign_position);
    }
    let id = nodes.put(Node::SimpleName {
        position,
        name: name.share()?,
    })?;
    let view = View::Sign(sign, sign_position);
    post_step(nodes, stack, &view, PostKind::Variable, position, id)
}

/// Behind a name.
#[tactic(auto, unfolding(parser_machine::specs::Operands::name_step))]
pub fn name_step(
    nodes: &mut Nodes,
    stack: &mut Stack,
    view: &View,
    position: Position,
    name: &SharedName,
) -> Result<Option<Mode>, Memory>
    ensures step { let awaited = name_step position name.now nodes.old.all stack.old (seen view.now) in
        gives result nodes.new.all stack.new awaited ≡ awaited }
    ensures kept { nodes.new.kept ≡ nodes.old.kept }
{
    if let View::Sign(sign, sign_position) = view {
        if *sign == LEFT_PARENTHESIS {
            stack.push(Entry::CallOpen {
                position,
                name: name.share()?,
                object: None,
            })?;
            stack.push(Entry::ArgumentsOpen {
                list: nodes.empty_list(),
            })?;
            return Ok(Some(Mode::ArgumentFirst));
        }
        return name_sign_step(nodes, stack, position, name, *sign, *sign_position);
    }
    let id = nodes.put(Node::SimpleName {
        position,
        name: name.share()?,
    })?;
    post_step(nodes, stack, view, PostKind::Variable, position, id)
}

/// A word where an operand is due.
#[tactic(auto, unfolding(parser_machine::specs::Operands::operand_word))]
pub fn operand_word(
    nodes: &mut Nodes,
    stack: &mut Stack,
    word: u8,
    position: Position,
) -> Result<Option<Mode>, Memory>
    ensures step { let awaited = operand_word word position nodes.old.all stack.old in
        gives result nodes.new.all stack.new awaited ≡ awaited }
    ensures kept { nodes.new.kept ≡ nodes.old.kept }
{
    if word == NEW {
        return Ok(Some(Mode::NewStart { position }));
    }
    let node = match word {
        TRUE => Node::True { position },
        FALSE => Node::False { position },
        NULL => Node::Null { position },
        THIS => Node::This { position },
        _ => return Ok(None),
    };
    let id = nodes.put(node)?;
    Ok(Some(Mode::PostDone {
        kind: PostKind::Value,
        position,
        id,
    }))
}

/// A sign where an operand is due.
#[tactic(auto, unfolding(parser_machine::specs::Operands::operand_sign))]
pub fn operand_sign(
    nodes: &mut Nodes,
    stack: &mut Stack,
    sign: u8,
    position: Position,
) -> Result<Option<Mode>, Memory>
    ensures step { let awaited = operand_sign sign position nodes.old.all stack.old in
        gives result nodes.new.all stack.new awaited ≡ awaited }
    ensures kept { nodes.new.kept ≡ nodes.old.kept }
{
    if sign == LEFT_PARENTHESIS {
        return Ok(Some(Mode::Opened { position }));
    }
    if sign == MINUS {
        return Ok(Some(Mode::Minus { position }));
    }
    if sign == NOT || sign == TILDE {
        stack.push(Entry::UnaryOpen {
            position,
            operator: sign,
        })?;
        return Ok(Some(Mode::Operand));
    }
    Ok(None)
}

/// Where an operand is due.
#[tactic(auto, unfolding(parser_machine::specs::Operands::operand_start))]
pub fn operand_start(
    nodes: &mut Nodes,
    stack: &mut Stack,
    view: &View,
) -> Result<Option<Mode>, Memory>
    ensures step { let awaited = operand_start nodes.old.all stack.old (seen view.now) in
        gives result nodes.new.all stack.new awaited ≡ awaited }
    ensures kept { nodes.new.kept ≡ nodes.old.kept }
{
    match view {
        View::Name(name, position) => Ok(Some(Mode::NameRead {
            position: *position,
            name: name.share()?,
        })),
        View::Word(word, position) => operand_word(nodes, stack, *word, *position),
        View::Number(value, position) => {
            if *value == MINIMUM {
                return Ok(None);
            }
            let id = nodes.put(Node::Number {
                position: *position,
                value: *value,
                is_negative: false,
            })?;
            Ok(Some(Mode::PostDone {
                kind: PostKind::Value,
                position: *position,
                id,
            }))
        }
        View::Sign(sign, position) => operand_sign(nodes, stack, *sign, *position),
        View::Text(_, _) | View::End(_) => Ok(None),
    }
}

/// Behind `-` where an operand is due.
#[tactic(auto, unfolding(parser_machine::specs::Operands::minus_step))]
pub fn minus_step(
    nodes: &mut Nodes,
    stack: &mut Stack,
    view: &View,
    position: Position,
) -> Result<Option<Mode>, Memory>
    ensures step { let awaited = minus_step position nodes.old.all stack.old (seen view.now) in
        gives result nodes.new.all stack.new awaited ≡ awaited }
    ensures kept { nodes.new.kept ≡ nodes.old.kept }
{
    if let View::Number(MINIMUM, _) = view {
        let id = nodes.put(Node::Number {
            position,
            value: MINIMUM,
            is_negative: true,
        })?;
        return Ok(Some(Mode::PostDone {
            kind: PostKind::Value,
            position,
            id,
        }));
    }
    stack.push(Entry::UnaryOpen {
        position,
        operator: MINUS,
    })?;
    operand_start(nodes, stack, view)
}

/// Behind `(` where an operand is due.
#[tactic(auto, unfolding(parser_machine::specs::Operands::opened_step))]
pub fn opened_step(
    nodes: &mut Nodes,
    stack: &mut Stack,
    view: &View,
    position: Position,
) -> Result<Option<Mode>, Memory>
    ensures step { let awaited = opened_step position nodes.old.all stack.old (seen view.now) in
        gives result nodes.new.all stack.new awaited ≡ awaited }
    ensures kept { nodes.new.kept ≡ nodes.old.kept }
{
    if let View::Name(name, name_position) = view {
        return Ok(Some(Mode::OpenedName {
            position,
            name_position: *name_position,
            name: name.share()?,
        }));
    }
    stack.push(Entry::GroupOpen { position })?;
    operand_start(nodes, stack, view)
}

/// Behind `(` and a name.
#[tactic(auto, unfolding(parser_machine::specs::Operands::opened_name_step))]
pub fn opened_name_step(
    nodes: &mut Nodes,
    stack: &mut Stack,
    view: &View,
    position: Position,
    name_position: Position,
    name: &SharedName,
) -> Result<Option<Mode>, Memory>
    ensures step { let awaited = opened_name_step position name_position name.now nodes.old.all stack.old (seen view.now) in
        gives result nodes.new.all stack.new awaited ≡ awaited }
    ensures kept { nodes.new.kept ≡ nodes.old.kept }
{
    if let View::Sign(RIGHT_PARENTHESIS, _) = view {
        return Ok(Some(Mode::ClosedName {
            position,
            name_position,
            name: name.share()?,
        }));
    }
    stack.push(Entry::GroupOpen { position })?;
    name_step(nodes, stack, view, name_position, name)
}

/// Behind a name between parentheses: they are a cast where the lexeme begins its operand.
#[tactic(auto, unfolding(parser_machine::specs::Operands::closed_name_step))]
pub fn closed_name_step(
    nodes: &mut Nodes,
    stack: &mut Stack,
    view: &View,
    position: Position,
    name_position: Position,
    name: &SharedName,
) -> Result<Option<Mode>, Memory>
    ensures step { let awaited = closed_name_step position name_position name.now nodes.old.all stack.old (seen view.now) in
        gives result nodes.new.all stack.new awaited ≡ awaited }
    ensures kept { nodes.new.kept ≡ nodes.old.kept }
{
    if is_unary1_start(view) && !stack.is_target() {
        stack.push(Entry::CastOpen {
            position,
            name_position,
            name: name.share()?,
        })?;
        return operand_start(nodes, stack, view);
    }
    let inner = nodes.put(Node::SimpleName {
        position: name_position,
        name: name.share()?,
    })?;
    let id = nodes.put(Node::Parenthesized { position, inner })?;
    post_step(nodes, stack, view, PostKind::Value, position, id)
}
