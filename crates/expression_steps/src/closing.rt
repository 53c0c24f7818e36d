//! What follows an expression, by what it is a part of.

ghost use Rattle.std.specs.Prelude.{◌≡◌, ◌∷◌};
ghost use Rattle.parser_machine.specs.Closing.{argument_ended, arguments_ended, assigned, closed, ended, shifted, target_alone, target_assigned, target_ended};
ghost use Rattle.parser_machine.specs.declared.entries.Entry.TheVariants.{AssignValue, CompoundValue, ForTest, GroupOpen, IfTest, IndexOpen, LengthOpen, LocalValue, ReturnValue, SuperCallOpen, WhileTest};
ghost use Rattle.parser_nodes.specs.Reported.{gives, seen};

use crate::levels::{admits, level_of, operation};
use parser_machine::{Entry, Mode};
use parser_nodes::growing_nodes::Nodes;
use parser_nodes::items::with_item;
use parser_nodes::stacks::Stack;
use parser_nodes::views::View;
use scj_base::vocabulary::{ASSIGN, COMMA, RIGHT_BRACKET, RIGHT_PARENTHESIS, SEMICOLON};
use scj_base::{Memory, NodeId, Position, SharedName};
use scj_tree::{Node, NodeList, PostKind};

/// Behind an assignment or a local with a value.
#[tactic(auto, unfolding(parser_machine::specs::Closing::assigned))]
pub fn assigned(
    nodes: &mut Nodes,
    stack: &mut Stack,
    view: &View,
    id: NodeId,
) -> Result<Option<Mode>, Memory>
    ensures step { let awaited = assigned id nodes.old.all stack.old (seen view.now) in
        gives result nodes.new.all stack.new awaited ≡ awaited }
    ensures kept { nodes.new.kept ≡ nodes.old.kept }
{
    let View::Sign(sign, _) = view else {
        return Ok(None);
    };
    let Some(entry) = stack.pop() else {
        return Ok(None);
    };
    match entry {
        Entry::Simple => {
            if *sign == SEMICOLON {
                Ok(Some(Mode::StatementEnd { id }))
            } else {
                Ok(None)
            }
        }
        Entry::ForHead { position } => {
            if *sign == SEMICOLON {
                stack.push(Entry::ForTest {
                    position,
                    first: id,
                })?;
                Ok(Some(Mode::Operand))
            } else {
                Ok(None)
            }
        }
        Entry::ForStep {
            position,
            first,
            condition,
        } => {
            if *sign == RIGHT_PARENTHESIS {
                stack.push(Entry::ForBody {
                    position,
                    first,
                    condition,
                    step: id,
                })?;
                Ok(Some(Mode::StatementStart))
            } else {
                Ok(None)
            }
        }
        _other => Ok(None),
    }
}

/// Behind the parenthesis that closes arguments.
#[tactic(auto, unfolding(parser_machine::specs::Closing::arguments_ended))]
pub fn arguments_ended(
    nodes: &mut Nodes,
    stack: &mut Stack,
    list: NodeList,
) -> Result<Option<Mode>, Memory>
    ensures step { let awaited = arguments_ended list nodes.old.all stack.old in
        gives result nodes.new.all stack.new awaited ≡ awaited }
    ensures kept { nodes.new.kept ≡ nodes.old.kept }
{
    let Some(entry) = stack.pop() else {
        return Ok(None);
    };
    match entry {
        Entry::CallOpen {
            position,
            name,
            object,
        } => {
            let id = nodes.put(Node::Call {
                position,
                name,
                object,
                arguments: list,
            })?;
            Ok(Some(Mode::PostDone {
                kind: PostKind::Invocation,
                position,
                id,
            }))
        }
        Entry::NewOpen {
            position,
            name_position,
            name,
        } => {
            let id = nodes.put(Node::New {
                position,
                name_position,
                name,
                arguments: list,
            })?;
            Ok(Some(Mode::PostDone {
                kind: PostKind::Invocation,
                position,
                id,
            }))
        }
        Entry::SuperCallOpen {
            block_position,
            position,
        } => super_call_ended(nodes, stack, list, block_position, position),
        _other => Ok(None),
    }
}

/// Behind the arguments of the call of a superclass's constructor.
#[tactic(auto, unfolding(parser_machine::specs::Closing::arguments_ended))]
pub fn super_call_ended(
    nodes: &mut Nodes,
    stack: &mut Stack,
    list: NodeList,
    block_position: Position,
    position: Position,
) -> Result<Option<Mode>, Memory>
    ensures step { let awaited = arguments_ended list nodes.old.all (SuperCallOpen block_position position ∷ stack.old) in
        gives result nodes.new.all stack.new awaited ≡ awaited }
    ensures kept { nodes.new.kept ≡ nodes.old.kept }
{
    let Some(entry) = stack.pop() else {
        return Ok(None);
    };
    match entry {
        Entry::ConstructorBody {
            flags,
            position: body_position,
            name,
            parameters,
            super_call: _,
        } => {
            let id = nodes.put(Node::SuperCall {
                position,
                arguments: list,
            })?;
            stack.push(Entry::ConstructorBody {
                flags,
                position: body_position,
                name,
                parameters,
                super_call: Some(id),
            })?;
            Ok(Some(Mode::SuperEnd { block_position }))
        }
        _other => Ok(None),
    }
}

/// Behind an argument; the list holds those before it.
#[tactic(auto, unfolding(parser_machine::specs::Closing::argument_ended))]
pub fn argument_ended(
    nodes: &mut Nodes,
    stack: &mut Stack,
    view: &View,
    id: NodeId,
    list: NodeList,
) -> Result<Option<Mode>, Memory>
    ensures step { let awaited = argument_ended id list nodes.old.all stack.old (seen view.now) in
        gives result nodes.new.all stack.new awaited ≡ awaited }
    ensures kept { nodes.new.kept ≡ nodes.old.kept }
{
    let View::Sign(sign, _) = view else {
        return Ok(None);
    };
    if *sign == COMMA {
        let list = with_item(list, id)?;
        stack.push(Entry::ArgumentsOpen { list })?;
        return Ok(Some(Mode::ArgumentNext));
    }
    if *sign == RIGHT_PARENTHESIS {
        let list = with_item(list, id)?;
        return arguments_ended(nodes, stack, list);
    }
    Ok(None)
}

/// Behind a target and `=`, which stands at `place`.
#[tactic(auto, unfolding(parser_machine::specs::Closing::target_assigned))]
pub fn target_assigned(
    nodes: &mut Nodes,
    stack: &mut Stack,
    kind: PostKind,
    id: NodeId,
    position: Position,
) -> Result<Option<Mode>, Memory>
    ensures step { let awaited = target_assigned kind id position nodes.old.all stack.old in
        gives result nodes.new.all stack.new awaited ≡ awaited }
    ensures kept { nodes.new.kept ≡ nodes.old.kept }
{
    match kind {
        PostKind::Variable => {
            stack.push(Entry::AssignValue {
                position,
                target: id,
            })?;
            Ok(Some(Mode::Operand))
        }
        _ => Ok(None),
    }
}

/// Behind a target that is a statement by itself.
#[tactic(auto, unfolding(parser_machine::specs::Closing::target_alone))]
pub fn target_alone(
    nodes: &mut Nodes,
    stack: &mut Stack,
    kind: PostKind,
    position: Position,
    id: NodeId,
) -> Result<Option<Mode>, Memory>
    ensures step { let awaited = target_alone kind position id nodes.old.all stack.old in
        gives result nodes.new.all stack.new awaited ≡ awaited }
    ensures kept { nodes.new.kept ≡ nodes.old.kept }
{
    let PostKind::Invocation = kind else {
        return Ok(None);
    };
    let Some(entry) = stack.pop() else {
        return Ok(None);
    };
    match entry {
        Entry::Simple => {
            let id = nodes.put(Node::ExpressionStatement {
                position,
                expression: id,
            })?;
            Ok(Some(Mode::StatementEnd { id }))
        }
        _other => Ok(None),
    }
}

/// Behind a target.
#[tactic(auto, unfolding(parser_machine::specs::Closing::target_ended))]
pub fn target_ended(
    nodes: &mut Nodes,
    stack: &mut Stack,
    view: &View,
    kind: PostKind,
    position: Position,
    id: NodeId,
) -> Result<Option<Mode>, Memory>
    ensures step { let awaited = target_ended kind position id nodes.old.all stack.old (seen view.now) in
        gives result nodes.new.all stack.new awaited ≡ awaited }
    ensures kept { nodes.new.kept ≡ nodes.old.kept }
{
    let View::Sign(sign, sign_position) = view else {
        return Ok(None);
    };
    if *sign == ASSIGN {
        return target_assigned(nodes, stack, kind, id, *sign_position);
    }
    if *sign == SEMICOLON {
        return target_alone(nodes, stack, kind, position, id);
    }
    Ok(None)
}

/// Behind the operand of a compound assignment.
#[tactic(auto, unfolding(parser_machine::specs::Closing::ended))]
pub fn compound_ended(
    nodes: &mut Nodes,
    stack: &mut Stack,
    view: &View,
    position: Position,
    operator: u8,
    target: NodeId,
    left: NodeId,
    id: NodeId,
) -> Result<Option<Mode>, Memory>
    ensures step { let awaited = ended (CompoundValue position operator target left) id nodes.old.all stack.old
        (seen view.now) in gives result nodes.new.all stack.new awaited ≡ awaited }
    ensures kept { nodes.new.kept ≡ nodes.old.kept }
{
    let inner = nodes.put(Node::Parenthesized {
        position,
        inner: id,
    })?;
    let value = nodes.put(Node::Binary {
        position,
        operator,
        left,
        right: inner,
    })?;
    let id = nodes.put(Node::Assign {
        position,
        target,
        value,
    })?;
    assigned(nodes, stack, view, id)
}

/// Behind an expression between parentheses.
#[tactic(auto, unfolding(parser_machine::specs::Closing::ended))]
pub fn group_ended(
    nodes: &mut Nodes,
    stack: &mut Stack,
    view: &View,
    position: Position,
    id: NodeId,
) -> Result<Option<Mode>, Memory>
    ensures step { let awaited = ended (GroupOpen position) id nodes.old.all stack.old (seen view.now) in
        gives result nodes.new.all stack.new awaited ≡ awaited }
    ensures kept { nodes.new.kept ≡ nodes.old.kept }
{
    let View::Sign(sign, _) = view else {
        return Ok(None);
    };
    if *sign != RIGHT_PARENTHESIS {
        return Ok(None);
    }
    let id = nodes.put(Node::Parenthesized {
        position,
        inner: id,
    })?;
    Ok(Some(Mode::PostDone {
        kind: PostKind::Value,
        position,
        id,
    }))
}

/// Behind an index.
#[tactic(auto, unfolding(parser_machine::specs::Closing::ended))]
pub fn index_ended(
    nodes: &mut Nodes,
    stack: &mut Stack,
    view: &View,
    position: Position,
    array: NodeId,
    id: NodeId,
) -> Result<Option<Mode>, Memory>
    ensures step { let awaited = ended (IndexOpen position array) id nodes.old.all stack.old (seen view.now) in
        gives result nodes.new.all stack.new awaited ≡ awaited }
    ensures kept { nodes.new.kept ≡ nodes.old.kept }
{
    let View::Sign(sign, _) = view else {
        return Ok(None);
    };
    if *sign != RIGHT_BRACKET {
        return Ok(None);
    }
    let id = nodes.put(Node::Element {
        position,
        array,
        index: id,
    })?;
    Ok(Some(Mode::PostDone {
        kind: PostKind::Variable,
        position,
        id,
    }))
}

/// Behind the length of a new array.
#[tactic(auto, unfolding(parser_machine::specs::Closing::ended))]
pub fn length_ended(
    nodes: &mut Nodes,
    stack: &mut Stack,
    view: &View,
    position: Position,
    element: NodeId,
    id: NodeId,
) -> Result<Option<Mode>, Memory>
    ensures step { let awaited = ended (LengthOpen position element) id nodes.old.all stack.old (seen view.now) in
        gives result nodes.new.all stack.new awaited ≡ awaited }
    ensures kept { nodes.new.kept ≡ nodes.old.kept }
{
    let View::Sign(sign, _) = view else {
        return Ok(None);
    };
    if *sign != RIGHT_BRACKET {
        return Ok(None);
    }
    let id = nodes.put(Node::NewArray {
        position,
        element,
        length: id,
    })?;
    Ok(Some(Mode::PostDone {
        kind: PostKind::NewArray,
        position,
        id,
    }))
}

/// Behind the condition of a `for`.
#[tactic(auto, unfolding(parser_machine::specs::Closing::ended))]
pub fn for_test_ended(
    nodes: &mut Nodes,
    stack: &mut Stack,
    view: &View,
    position: Position,
    first: NodeId,
    id: NodeId,
) -> Result<Option<Mode>, Memory>
    ensures step { let awaited = ended (ForTest position first) id nodes.old.all stack.old (seen view.now) in
        gives result nodes.new.all stack.new awaited ≡ awaited }
    ensures kept { nodes.new.kept ≡ nodes.old.kept }
{
    let View::Sign(sign, _) = view else {
        return Ok(None);
    };
    if *sign != SEMICOLON {
        return Ok(None);
    }
    stack.push(Entry::ForStep {
        position,
        first,
        condition: id,
    })?;
    Ok(Some(Mode::ForStepStart))
}

/// Behind the condition of an `if`.
#[tactic(auto, unfolding(parser_machine::specs::Closing::ended))]
pub fn if_test_ended(
    nodes: &mut Nodes,
    stack: &mut Stack,
    view: &View,
    position: Position,
    id: NodeId,
) -> Result<Option<Mode>, Memory>
    ensures step { let awaited = ended (IfTest position) id nodes.old.all stack.old (seen view.now) in
        gives result nodes.new.all stack.new awaited ≡ awaited }
    ensures kept { nodes.new.kept ≡ nodes.old.kept }
{
    let View::Sign(sign, _) = view else {
        return Ok(None);
    };
    if *sign != RIGHT_PARENTHESIS {
        return Ok(None);
    }
    stack.push(Entry::IfThen {
        position,
        condition: id,
    })?;
    Ok(Some(Mode::StatementStart))
}

/// Behind the condition of a `while`.
#[tactic(auto, unfolding(parser_machine::specs::Closing::ended))]
pub fn while_test_ended(
    nodes: &mut Nodes,
    stack: &mut Stack,
    view: &View,
    position: Position,
    id: NodeId,
) -> Result<Option<Mode>, Memory>
    ensures step { let awaited = ended (WhileTest position) id nodes.old.all stack.old (seen view.now) in
        gives result nodes.new.all stack.new awaited ≡ awaited }
    ensures kept { nodes.new.kept ≡ nodes.old.kept }
{
    let View::Sign(sign, _) = view else {
        return Ok(None);
    };
    if *sign != RIGHT_PARENTHESIS {
        return Ok(None);
    }
    stack.push(Entry::WhileBody {
        position,
        condition: id,
    })?;
    Ok(Some(Mode::StatementStart))
}

/// Behind the value of a `return`.
#[tactic(auto, unfolding(parser_machine::specs::Closing::ended))]
pub fn return_ended(
    nodes: &mut Nodes,
    stack: &mut Stack,
    view: &View,
    position: Position,
    id: NodeId,
) -> Result<Option<Mode>, Memory>
    ensures step { let awaited = ended (ReturnValue position) id nodes.old.all stack.old (seen view.now) in
        gives result nodes.new.all stack.new awaited ≡ awaited }
    ensures kept { nodes.new.kept ≡ nodes.old.kept }
{
    let View::Sign(sign, _) = view else {
        return Ok(None);
    };
    if *sign != SEMICOLON {
        return Ok(None);
    }
    let id = nodes.put(Node::Return {
        position,
        value: Some(id),
    })?;
    Ok(Some(Mode::StatementEnd { id }))
}

/// Behind the value of an assignment.
#[tactic(auto, unfolding(parser_machine::specs::Closing::ended))]
pub fn value_ended(
    nodes: &mut Nodes,
    stack: &mut Stack,
    view: &View,
    position: Position,
    target: NodeId,
    id: NodeId,
) -> Result<Option<Mode>, Memory>
    ensures step { let awaited = ended (AssignValue position target) id nodes.old.all stack.old (seen view.now) in
        gives result nodes.new.all stack.new awaited ≡ awaited }
    ensures kept { nodes.new.kept ≡ nodes.old.kept }
{
    let id = nodes.put(Node::Assign {
        position,
        target,
        value: id,
    })?;
    assigned(nodes, stack, view, id)
}

/// Behind the value of a local.
#[tactic(auto, unfolding(parser_machine::specs::Closing::ended))]
pub fn local_value_ended(
    nodes: &mut Nodes,
    stack: &mut Stack,
    view: &View,
    position: Position,
    name_position: Position,
    name: SharedName,
    flags: Option<NodeId>,
    declared_type: NodeId,
    id: NodeId,
) -> Result<Option<Mode>, Memory>
    ensures step { let awaited = ended (LocalValue position name_position name flags declared_type) id nodes.old.all stack.old
        (seen view.now) in gives result nodes.new.all stack.new awaited ≡ awaited }
    ensures kept { nodes.new.kept ≡ nodes.old.kept }
{
    let id = nodes.put(Node::LocalWithValue {
        position,
        name_position,
        name,
        flags,
        declared_type,
        value: id,
    })?;
    assigned(nodes, stack, view, id)
}

/// Behind an expression that is a part of no other expression's operators.
#[tactic(auto, unfolding(parser_machine::specs::Closing::ended))]
pub fn ended(
    nodes: &mut Nodes,
    stack: &mut Stack,
    view: &View,
    entry: Entry,
    id: NodeId,
) -> Result<Option<Mode>, Memory>
    ensures step { let awaited = ended entry id nodes.old.all stack.old (seen view.now) in
        gives result nodes.new.all stack.new awaited ≡ awaited }
    ensures kept { nodes.new.kept ≡ nodes.old.kept }
{
    match entry {
        Entry::GroupOpen { position } => group_ended(nodes, stack, view, position, id),
        Entry::IndexOpen { position, array } => index_ended(
            nodes, stack, view, position, array, id,
        ),
        Entry::LengthOpen { position, element } => length_ended(
            nodes, stack, view, position, element, id,
        ),
        Entry::ArgumentsOpen { list } => argument_ended(nodes, stack, view, id, list),
        Entry::AssignValue { position, target } => value_ended(
            nodes, stack, view, position, target, id,
        ),
        Entry::CompoundValue {
            position,
            operator,
            target,
            left,
        } => compound_ended(nodes, stack, view, position, operator, target, left, id),
        Entry::LocalValue {
            position,
            name_position,
            name,
            flags,
            declared_type,
        } => local_value_ended(
            nodes,
            stack,
            view,
            position,
            name_position,
            name,
            flags,
            declared_type,
            id,
        ),
        Entry::ForTest { position, first } => for_test_ended(
            nodes, stack, view, position, first, id,
        ),
        Entry::IfTest { position } => if_test_ended(nodes, stack, view, position, id),
        Entry::WhileTest { position } => while_test_ended(nodes, stack, view, position, id),
        Entry::ReturnValue { position } => return_ended(nodes, stack, view, position, id),
        _other => Ok(None),
    }
}

/// With the operator behind its left operand.
#[tactic(auto, unfolding(parser_machine::specs::Closing::shifted))]
pub fn shifted(
    nodes: &mut Nodes,
    stack: &mut Stack,
    view: &View,
    id: NodeId,
) -> Result<Option<Mode>, Memory>
    ensures step { let awaited = shifted id nodes.old.all stack.old (seen view.now) in
        gives result nodes.new.all stack.new awaited ≡ awaited }
    ensures kept { nodes.new.kept ≡ nodes.old.kept }
{
    let View::Sign(operator, position) = view else {
        return Ok(None);
    };
    stack.push(Entry::BinaryLeft {
        position: *position,
        operator: *operator,
        left: id,
    })?;
    Ok(Some(Mode::Operand))
}

/// Behind an operand.
#[tactic(auto, unfolding(parser_machine::specs::Closing::closed))]
pub fn closed(
    nodes: &mut Nodes,
    stack: &mut Stack,
    view: &View,
    id: NodeId,
) -> Result<Option<Mode>, Memory>
    ensures step { let awaited = closed id nodes.old.all stack.old (seen view.now) in
        gives result nodes.new.all stack.new awaited ≡ awaited }
    ensures kept { nodes.new.kept ≡ nodes.old.kept }
{
    let level = level_of(view);
    let mut id = id;
    loop {
        let Some(entry) = stack.pop() else {
            return Ok(None);
        };
        if admits(&entry, level) {
            stack.push(entry)?;
            return shifted(nodes, stack, view, id);
        }
        let Some(node) = operation(&entry, id)? else {
            return ended(nodes, stack, view, entry, id);
        };
        id = nodes.put(node)?;
    }
}
