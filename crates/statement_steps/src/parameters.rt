//! Parameters, and where bodies begin.

ghost use Rattle.std.specs.Prelude.{◌≡◌, ◌∷◌, []};
ghost use Rattle.parser_machine.specs.Blocks.{statements_step};
ghost use Rattle.parser_machine.specs.Declarations.{flags_step};
ghost use Rattle.parser_machine.specs.Members.{body_step, constructor_start_step, parameter_end_step, parameter_ended, parameters_end_step, parameters_first_step, super_end_step, super_open_step};
ghost use Rattle.parser_machine.specs.declared.entries.Entry.TheVariants.{BlockOpen, MethodOpen, ParametersOpen};
ghost use Rattle.parser_nodes.specs.Reported.{gives, seen};
ghost use Rattle.scj_tree.specs.Terminals.{no_flags};
ghost use Rattle.std.specs.Prelude.{[], false};

use crate::blocks::statements_step;
use parser_machine::{Entry, Mode};
use parser_nodes::growing_nodes::Nodes;
use parser_nodes::items::with_item;
use parser_nodes::read_members::member_read;
use parser_nodes::stacks::Stack;
use parser_nodes::views::View;
use scj_base::vocabulary::{
    COMMA, LEFT_BRACE, LEFT_PARENTHESIS, RIGHT_PARENTHESIS, SEMICOLON, SUPER,
};
use scj_base::{Memory, NodeId, Position, SharedName};
use scj_tree::Node;
use type_steps::declarations::flags_step;
use type_steps::flags::no_flags;

/// Where the first parameter is due, behind the parenthesis at `place`.
#[tactic(auto, unfolding(parser_machine::specs::Declarations::flags_step))]
pub fn parameters_first(
    nodes: &mut Nodes,
    stack: &mut Stack,
    view: &View,
    position: Position,
) -> Result<Option<Mode>, Memory>
    ensures step { let awaited = flags_step false no_flags nodes.old.all (ParametersOpen position [] ∷ stack.old)
        (seen view.now) in gives result nodes.new.all stack.new awaited ≡ awaited }
    ensures kept { nodes.new.kept ≡ nodes.old.kept }
{
    stack.push(Entry::ParametersOpen {
        position,
        list: nodes.empty_list(),
    })?;
    flags_step(nodes, stack, view, false, no_flags())
}

/// Behind the parenthesis of a method or constructor, which stands at `place`.
#[tactic(auto, unfolding(parser_machine::specs::Members::parameters_first_step))]
pub fn parameters_first_step(
    nodes: &mut Nodes,
    stack: &mut Stack,
    view: &View,
    position: Position,
) -> Result<Option<Mode>, Memory>
    ensures step { let awaited = parameters_first_step position nodes.old.all stack.old (seen view.now) in
        gives result nodes.new.all stack.new awaited ≡ awaited }
    ensures kept { nodes.new.kept ≡ nodes.old.kept }
{
    if let View::Sign(sign, _) = view {
        if *sign == RIGHT_PARENTHESIS {
            return Ok(Some(Mode::ParametersDone { parameters: None }));
        }
        return parameters_first(nodes, stack, view, position);
    }
    parameters_first(nodes, stack, view, position)
}

/// Behind a parameter and a sign.
#[tactic(auto, unfolding(parser_machine::specs::Members::parameter_ended))]
pub fn parameter_ended(
    nodes: &mut Nodes,
    stack: &mut Stack,
    id: NodeId,
    sign: u8,
) -> Result<Option<Mode>, Memory>
    ensures step { let awaited = parameter_ended id nodes.old.all stack.old sign in
        gives result nodes.new.all stack.new awaited ≡ awaited }
    ensures kept { nodes.new.kept ≡ nodes.old.kept }
{
    let Some(entry) = stack.pop() else {
        return Ok(None);
    };
    match entry {
        Entry::ParametersOpen { position, list } => {
            let list = with_item(list, id)?;
            if sign == COMMA {
                stack.push(Entry::ParametersOpen { position, list })?;
                return Ok(Some(Mode::FlagsRead {
                    is_local: false,
                    flags: no_flags(),
                }));
            }
            if sign == RIGHT_PARENTHESIS {
                let id = nodes.put(Node::Parameters { position, list })?;
                return Ok(Some(Mode::ParametersDone {
                    parameters: Some(id),
                }));
            }
            Ok(None)
        }
        _other => Ok(None),
    }
}

/// Behind a parameter.
#[tactic(auto, unfolding(parser_machine::specs::Members::parameter_end_step))]
pub fn parameter_end_step(
    nodes: &mut Nodes,
    stack: &mut Stack,
    view: &View,
    id: NodeId,
) -> Result<Option<Mode>, Memory>
    ensures step { let awaited = parameter_end_step id nodes.old.all stack.old (seen view.now) in
        gives result nodes.new.all stack.new awaited ≡ awaited }
    ensures kept { nodes.new.kept ≡ nodes.old.kept }
{
    let View::Sign(sign, _) = view else {
        return Ok(None);
    };
    parameter_ended(nodes, stack, id, *sign)
}

/// Behind the parameters of a method, and a sign.
#[tactic(auto, unfolding(parser_machine::specs::Members::body_step))]
pub fn method_body_step(
    nodes: &mut Nodes,
    stack: &mut Stack,
    parameters: Option<NodeId>,
    sign: u8,
    sign_position: Position,
    flags: Option<NodeId>,
    result_type: NodeId,
    position: Position,
    name: SharedName,
) -> Result<Option<Mode>, Memory>
    ensures step { let awaited = body_step parameters nodes.old.all (MethodOpen flags result_type position name
        ∷ stack.old) sign sign_position in gives result nodes.new.all stack.new awaited ≡ awaited }
    ensures kept { nodes.new.kept ≡ nodes.old.kept }
{
    if sign == LEFT_BRACE {
        stack.push(Entry::MethodBody {
            flags,
            result_type,
            position,
            name,
            parameters,
        })?;
        stack.push(Entry::BlockOpen {
            position: sign_position,
            statements: nodes.empty_list(),
        })?;
        return Ok(Some(Mode::InStatements));
    }
    if sign == SEMICOLON {
        let id = nodes.put(Node::Method {
            position,
            name,
            flags,
            result_type,
            parameters,
            body: None,
        })?;
        return member_read(nodes, stack, id);
    }
    Ok(None)
}

/// Behind the parameters, and a sign.
#[tactic(auto, unfolding(parser_machine::specs::Members::body_step))]
pub fn body_step(
    nodes: &mut Nodes,
    stack: &mut Stack,
    parameters: Option<NodeId>,
    sign: u8,
    sign_position: Position,
) -> Result<Option<Mode>, Memory>
    ensures step { let awaited = body_step parameters nodes.old.all stack.old sign sign_position in
        gives result nodes.new.all stack.new awaited ≡ awaited }
    ensures kept { nodes.new.kept ≡ nodes.old.kept }
{
    let Some(entry) = stack.pop() else {
        return Ok(None);
    };
    match entry {
        Entry::MethodOpen {
            flags,
            result_type,
            position,
            name,
        } => method_body_step(
            nodes,
            stack,
            parameters,
            sign,
            sign_position,
            flags,
            result_type,
            position,
            name,
        ),
        Entry::ConstructorOpen {
            flags,
            position,
            name,
        } => {
            if sign == LEFT_BRACE {
                stack.push(Entry::ConstructorBody {
                    flags,
                    position,
                    name,
                    parameters,
                    super_call: None,
                })?;
                Ok(Some(Mode::ConstructorStart {
                    position: sign_position,
                }))
            } else {
                Ok(None)
            }
        }
        _other => Ok(None),
    }
}

/// Behind the parameters.
#[tactic(auto, unfolding(parser_machine::specs::Members::parameters_end_step))]
pub fn parameters_end_step(
    nodes: &mut Nodes,
    stack: &mut Stack,
    view: &View,
    parameters: Option<NodeId>,
) -> Result<Option<Mode>, Memory>
    ensures step { let awaited = parameters_end_step parameters nodes.old.all stack.old (seen view.now) in
        gives result nodes.new.all stack.new awaited ≡ awaited }
    ensures kept { nodes.new.kept ≡ nodes.old.kept }
{
    let View::Sign(sign, sign_position) = view else {
        return Ok(None);
    };
    body_step(nodes, stack, parameters, *sign, *sign_position)
}

/// Where the first statement of a block is due, whose brace stands at `place`.
#[tactic(auto, unfolding(parser_machine::specs::Blocks::statements_step))]
pub fn block_start(
    nodes: &mut Nodes,
    stack: &mut Stack,
    view: &View,
    position: Position,
) -> Result<Option<Mode>, Memory>
    ensures step { let awaited = statements_step nodes.old.all (BlockOpen position [] ∷ stack.old) (seen view.now) in
        gives result nodes.new.all stack.new awaited ≡ awaited }
    ensures kept { nodes.new.kept ≡ nodes.old.kept }
{
    stack.push(Entry::BlockOpen {
        position,
        statements: nodes.empty_list(),
    })?;
    statements_step(nodes, stack, view)
}

/// Behind the brace of a constructor, which stands at `block_position`.
#[tactic(auto, unfolding(parser_machine::specs::Members::constructor_start_step))]
pub fn constructor_start_step(
    nodes: &mut Nodes,
    stack: &mut Stack,
    view: &View,
    block_position: Position,
) -> Result<Option<Mode>, Memory>
    ensures step { let awaited = constructor_start_step block_position nodes.old.all stack.old (seen view.now) in
        gives result nodes.new.all stack.new awaited ≡ awaited }
    ensures kept { nodes.new.kept ≡ nodes.old.kept }
{
    if let View::Word(word, position) = view {
        if *word == SUPER {
            return Ok(Some(Mode::SuperOpen {
                block_position,
                position: *position,
            }));
        }
        return block_start(nodes, stack, view, block_position);
    }
    block_start(nodes, stack, view, block_position)
}

/// Behind `super` in a constructor.
#[tactic(auto, unfolding(parser_machine::specs::Members::super_open_step))]
pub fn super_open_step(
    nodes: &mut Nodes,
    stack: &mut Stack,
    view: &View,
    block_position: Position,
    position: Position,
) -> Result<Option<Mode>, Memory>
    ensures step { let awaited = super_open_step block_position position nodes.old.all stack.old (seen view.now) in
        gives result nodes.new.all stack.new awaited ≡ awaited }
    ensures kept { nodes.new.kept ≡ nodes.old.kept }
{
    let View::Sign(sign, _) = view else {
        return Ok(None);
    };
    if *sign != LEFT_PARENTHESIS {
        return Ok(None);
    }
    stack.push(Entry::SuperCallOpen {
        block_position,
        position,
    })?;
    stack.push(Entry::ArgumentsOpen {
        list: nodes.empty_list(),
    })?;
    Ok(Some(Mode::ArgumentFirst))
}

/// Behind the call of a superclass's constructor.
#[tactic(auto, unfolding(parser_machine::specs::Members::super_end_step))]
pub fn super_end_step(
    nodes: &mut Nodes,
    stack: &mut Stack,
    view: &View,
    block_position: Position,
) -> Result<Option<Mode>, Memory>
    ensures step { let awaited = super_end_step block_position nodes.old.all stack.old (seen view.now) in
        gives result nodes.new.all stack.new awaited ≡ awaited }
    ensures kept { nodes.new.kept ≡ nodes.old.kept }
{
    let View::Sign(sign, _) = view else {
        return Ok(None);
    };
    if *sign != SEMICOLON {
        return Ok(None);
    }
    stack.push(Entry::BlockOpen {
        position: block_position,
        statements: nodes.empty_list(),
    })?;
    Ok(Some(Mode::InStatements))
}
