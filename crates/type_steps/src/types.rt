//! Types, and the names behind them.

ghost use Rattle.std.specs.Prelude.{◌≡◌};
ghost use Rattle.parser_machine.specs.Declarations.{constructor_step, type_argument_end_step, type_argument_name_step, type_bracket_step, type_end_step, type_name_step, type_start, typed};
ghost use Rattle.parser_nodes.specs.Reported.{gives, seen};
ghost use Rattle.scj_tree.specs.Lexemes.{a_sign};

use crate::elements::{element_node, same_element};
use crate::names::has_type_argument;
use parser_machine::{ElementType, Entry, Mode};
use parser_nodes::growing_nodes::Nodes;
use parser_nodes::stacks::Stack;
use parser_nodes::views::View;
use scj_base::vocabulary::{
    BOOLEAN, GREATER, INT, LEFT_BRACKET, LEFT_PARENTHESIS, LESS, RIGHT_BRACKET,
};
use scj_base::{Memory, NodeId, Position, SharedName};
use scj_tree::Node;

/// Behind a type.
#[tactic(auto, unfolding(parser_machine::specs::Declarations::typed))]
pub fn typed(
    nodes: &mut Nodes,
    stack: &mut Stack,
    view: &View,
    id: NodeId,
) -> Result<Option<Mode>, Memory>
    ensures step { let awaited = typed id nodes.old.all stack.old (seen view.now) in
        gives result nodes.new.all stack.new awaited ≡ awaited }
    ensures kept { nodes.new.kept ≡ nodes.old.kept }
{
    let View::Name(name, position) = view else {
        return Ok(None);
    };
    let Some(entry) = stack.pop() else {
        return Ok(None);
    };
    match entry {
        Entry::MemberOpen { flags } => Ok(Some(Mode::MemberNamed {
            flags,
            declared_type: id,
            position: *position,
            name: name.share()?,
        })),
        Entry::ParameterOpen { flags } => {
            let id = nodes.put(Node::Parameter {
                position: *position,
                name: name.share()?,
                flags,
                declared_type: id,
            })?;
            Ok(Some(Mode::ParameterDone { id }))
        }
        Entry::LocalOpen { flags } => Ok(Some(Mode::LocalNamed {
            flags,
            declared_type: id,
            position: *position,
            name: name.share()?,
        })),
        _other => Ok(None),
    }
}

/// Behind a type without brackets.
#[tactic(auto, unfolding(parser_machine::specs::Declarations::type_end_step))]
pub fn type_end_step(
    nodes: &mut Nodes,
    stack: &mut Stack,
    view: &View,
    position: Position,
    element: &ElementType,
) -> Result<Option<Mode>, Memory>
    ensures step { let awaited = type_end_step position element.now nodes.old.all stack.old (seen view.now) in
        gives result nodes.new.all stack.new awaited ≡ awaited }
    ensures kept { nodes.new.kept ≡ nodes.old.kept }
{
    if let View::Sign(sign, _) = view {
        if *sign == LEFT_BRACKET {
            return Ok(Some(Mode::TypeBracket {
                position,
                element: same_element(element)?,
            }));
        }
        return Ok(None);
    }
    let node = element_node(position, element, false)?;
    let id = nodes.put(node)?;
    typed(nodes, stack, view, id)
}

/// Behind the `[` of a type.
#[tactic(auto, unfolding(parser_machine::specs::Declarations::type_bracket_step))]
pub fn type_bracket_step(
    nodes: &mut Nodes,
    stack: &mut Stack,
    view: &View,
    position: Position,
    element: &ElementType,
) -> Result<Option<Mode>, Memory>
    ensures step { let awaited = type_bracket_step position element.now nodes.old.all stack.old (seen view.now) in
        gives result nodes.new.all stack.new awaited ≡ awaited }
    ensures kept { nodes.new.kept ≡ nodes.old.kept }
{
    let View::Sign(sign, _) = view else {
        return Ok(None);
    };
    if *sign != RIGHT_BRACKET {
        return Ok(None);
    }
    let node = element_node(position, element, true)?;
    let id = nodes.put(node)?;
    Ok(Some(Mode::TypeDone { id }))
}

/// Behind the name of a member and `(`, which stands at `parenthesis`.
#[tactic(auto, unfolding(parser_machine::specs::Declarations::constructor_step))]
pub fn constructor_step(
    nodes: &mut Nodes,
    stack: &mut Stack,
    position: Position,
    name: &SharedName,
    parenthesis: Position,
) -> Result<Option<Mode>, Memory>
    ensures step { let awaited = constructor_step position name.now parenthesis nodes.old.all stack.old in
        gives result nodes.new.all stack.new awaited ≡ awaited }
    ensures kept { nodes.new.kept ≡ nodes.old.kept }
{
    let Some(entry) = stack.pop() else {
        return Ok(None);
    };
    match entry {
        Entry::MemberOpen { flags } => {
            stack.push(Entry::ConstructorOpen {
                flags,
                position,
                name: name.share()?,
            })?;
            Ok(Some(Mode::ParametersFirst {
                position: parenthesis,
            }))
        }
        _other => Ok(None),
    }
}

/// Behind a name where a type is due, and a sign.
#[tactic(auto, unfolding(parser_machine::specs::Declarations::type_name_step))]
pub fn type_name_sign(
    nodes: &mut Nodes,
    stack: &mut Stack,
    position: Position,
    name: &SharedName,
    sign: u8,
    sign_position: Position,
) -> Result<Option<Mode>, Memory>
    ensures step { let awaited = type_name_step position name.now nodes.old.all stack.old (a_sign sign sign_position) in
        gives result nodes.new.all stack.new awaited ≡ awaited }
    ensures kept { nodes.new.kept ≡ nodes.old.kept }
{
    if sign == LESS {
        if has_type_argument(name) {
            return Ok(Some(Mode::TypeArgumentName {
                position,
                name: name.share()?,
            }));
        }
        return Ok(None);
    }
    if sign == LEFT_BRACKET {
        return Ok(Some(Mode::TypeBracket {
            position,
            element: ElementType::Reference {
                name: name.share()?,
                argument: None,
            },
        }));
    }
    if sign == LEFT_PARENTHESIS {
        return constructor_step(nodes, stack, position, name, sign_position);
    }
    Ok(None)
}

/// Behind a name where a type is due.
#[tactic(auto, unfolding(parser_machine::specs::Declarations::type_name_step))]
pub fn type_name_step(
    nodes: &mut Nodes,
    stack: &mut Stack,
    view: &View,
    position: Position,
    name: &SharedName,
) -> Result<Option<Mode>, Memory>
    ensures step { let awaited = type_name_step position name.now nodes.old.all stack.old (seen view.now) in
        gives result nodes.new.all stack.new awaited ≡ awaited }
    ensures kept { nodes.new.kept ≡ nodes.old.kept }
{
    if let View::Sign(sign, sign_position) = view {
        return type_name_sign(nodes, stack, position, name, *sign, *sign_position);
    }
    let id = nodes.put(Node::ClassType {
        position,
        name: name.share()?,
        argument: None,
        is_array: false,
    })?;
    typed(nodes, stack, view, id)
}

/// Behind the `<` of a type.
#[tactic(auto, unfolding(parser_machine::specs::Declarations::type_argument_name_step))]
pub fn type_argument_name_step(
    nodes: &mut Nodes,
    stack: &mut Stack,
    view: &View,
    position: Position,
    name: &SharedName,
) -> Result<Option<Mode>, Memory>
    ensures step { let awaited = type_argument_name_step position name.now nodes.old.all stack.old (seen view.now) in
        gives result nodes.new.all stack.new awaited ≡ awaited }
    ensures kept { nodes.new.kept ≡ nodes.old.kept }
{
    let View::Name(argument, argument_position) = view else {
        return Ok(None);
    };
    let argument = nodes.put(Node::TypeArgument {
        position: *argument_position,
        name: argument.share()?,
    })?;
    Ok(Some(Mode::TypeArgumentEnd {
        position,
        name: name.share()?,
        argument,
    }))
}

/// Behind the argument of a type.
#[tactic(auto, unfolding(parser_machine::specs::Declarations::type_argument_end_step))]
pub fn type_argument_end_step(
    nodes: &mut Nodes,
    stack: &mut Stack,
    view: &View,
    position: Position,
    name: &SharedName,
    argument: NodeId,
) -> Result<Option<Mode>, Memory>
    ensures step { let awaited = type_argument_end_step position name.now argument nodes.old.all stack.old (seen view.now)
        in gives result nodes.new.all stack.new awaited ≡ awaited }
    ensures kept { nodes.new.kept ≡ nodes.old.kept }
{
    let View::Sign(sign, _) = view else {
        return Ok(None);
    };
    if *sign == GREATER {
        return Ok(Some(Mode::TypeEnd {
            position,
            element: ElementType::Reference {
                name: name.share()?,
                argument: Some(argument),
            },
        }));
    }
    Ok(None)
}

/// Where a type is due.
#[tactic(auto, unfolding(parser_machine::specs::Declarations::type_start))]
pub fn type_start(nodes: &mut Nodes, stack: &mut Stack, view: &View) -> Result<Option<Mode>, Memory>
    ensures step { let awaited = type_start nodes.old.all stack.old (seen view.now) in
        gives result nodes.new.all stack.new awaited ≡ awaited }
    ensures kept { nodes.new.kept ≡ nodes.old.kept }
{
    match view {
        View::Name(name, position) => Ok(Some(Mode::TypeName {
            position: *position,
            name: name.share()?,
        })),
        View::Word(INT, position) => Ok(Some(Mode::TypeEnd {
            position: *position,
            element: ElementType::Int,
        })),
        View::Word(BOOLEAN, position) => Ok(Some(Mode::TypeEnd {
            position: *position,
            element: ElementType::Boolean,
        })),
        _ => Ok(None),
    }
}
