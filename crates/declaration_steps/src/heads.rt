//! The heads of classes.

ghost use Rattle.std.specs.Prelude.{◌≡◌, ◌∷◌};
ghost use Rattle.parser_machine.specs.Files.{class_name_step, class_named_step, class_opened, interface_sign, super_argument_end_step, super_argument_name_step, super_ended, super_name_step, super_named_step, superclass_sign};
ghost use Rattle.parser_machine.specs.declared.entries.Entry.TheVariants.{SupersOpen};
ghost use Rattle.parser_nodes.specs.Reported.{gives, seen};
ghost use Rattle.scj_tree.specs.Lexemes.{a_word};
ghost use Rattle.scj_tree.specs.Nodes.{put};
ghost use Rattle.scj_tree.specs.declared.nodes.Node.TheVariants.{SuperType};
ghost use Rattle.std.specs.Prelude.{length, None, true, false};

use parser_machine::{Entry, Mode};
use parser_nodes::growing_nodes::Nodes;
use parser_nodes::items::with_item;
use parser_nodes::stacks::Stack;
use parser_nodes::views::View;
use scj_base::vocabulary::{COMMA, EXTENDS, GREATER, IMPLEMENTS, LEFT_BRACE, LESS};
use scj_base::{Memory, NodeId, Position, SharedName};
use scj_tree::{Node, NodeList};
use type_steps::names::has_type_argument;

/// Behind `class`.
#[tactic(auto, unfolding(parser_machine::specs::Files::class_name_step))]
pub fn class_name_step(
    nodes: &mut Nodes,
    stack: &mut Stack,
    view: &View,
    flags: Option<NodeId>,
) -> Result<Option<Mode>, Memory>
    ensures step { let awaited = class_name_step flags nodes.old.all stack.old (seen view.now) in
        gives result nodes.new.all stack.new awaited ≡ awaited }
    ensures kept { nodes.new.kept ≡ nodes.old.kept }
{
    let View::Name(name, position) = view else {
        return Ok(None);
    };
    stack.push(Entry::ClassOpen {
        flags,
        position: *position,
        name: name.share()?,
    })?;
    Ok(Some(Mode::ClassNamed))
}

/// Behind the brace that opens a class.
#[tactic(auto, unfolding(parser_machine::specs::Files::class_opened))]
pub fn class_opened(
    nodes: &mut Nodes,
    stack: &mut Stack,
    header: Option<NodeId>,
) -> Result<Option<Mode>, Memory>
    ensures step { let awaited = class_opened header nodes.old.all stack.old in
        gives result nodes.new.all stack.new awaited ≡ awaited }
    ensures kept { nodes.new.kept ≡ nodes.old.kept }
{
    let Some(entry) = stack.pop() else {
        return Ok(None);
    };
    match entry {
        Entry::ClassOpen {
            flags,
            position,
            name,
        } => {
            stack.push(Entry::ClassBody {
                flags,
                position,
                name,
                header,
                members: nodes.empty_list(),
            })?;
            Ok(Some(Mode::InMembers))
        }
        _other => Ok(None),
    }
}

/// A word behind a class's name.
#[tactic(auto, unfolding(parser_machine::specs::Files::class_named_step))]
pub fn class_named_word(
    nodes: &mut Nodes,
    stack: &mut Stack,
    word: u8,
    position: Position,
) -> Result<Option<Mode>, Memory>
    ensures step { let awaited = class_named_step nodes.old.all stack.old (a_word word position) in
        gives result nodes.new.all stack.new awaited ≡ awaited }
    ensures kept { nodes.new.kept ≡ nodes.old.kept }
{
    let is_extends = match word {
        EXTENDS => true,
        IMPLEMENTS => false,
        _ => return Ok(None),
    };
    stack.push(Entry::SupersOpen {
        position,
        is_extends,
        superclass: None,
        interfaces: nodes.empty_list(),
    })?;
    Ok(Some(Mode::SuperName))
}

/// Behind a class's name.
#[tactic(auto, unfolding(parser_machine::specs::Files::class_named_step))]
pub fn class_named_step(
    nodes: &mut Nodes,
    stack: &mut Stack,
    view: &View,
) -> Result<Option<Mode>, Memory>
    ensures step { let awaited = class_named_step nodes.old.all stack.old (seen view.now) in
        gives result nodes.new.all stack.new awaited ≡ awaited }
    ensures kept { nodes.new.kept ≡ nodes.old.kept }
{
    match view {
        View::Word(word, position) => class_named_word(nodes, stack, *word, *position),
        View::Sign(sign, _) => {
            if *sign == LEFT_BRACE {
                return class_opened(nodes, stack, None);
            }
            Ok(None)
        }
        _ => Ok(None),
    }
}

/// Where a super type is due.
#[tactic(auto, unfolding(parser_machine::specs::Files::super_name_step))]
pub fn super_name_step(
    nodes: &mut Nodes,
    stack: &mut Stack,
    view: &View,
) -> Result<Option<Mode>, Memory>
    ensures step { let awaited = super_name_step nodes.old.all stack.old (seen view.now) in
        gives result nodes.new.all stack.new awaited ≡ awaited }
    ensures kept { nodes.new.kept ≡ nodes.old.kept }
{
    let View::Name(name, position) = view else {
        return Ok(None);
    };
    Ok(Some(Mode::SuperNamed {
        position: *position,
        name: name.share()?,
    }))
}

/// Behind a superclass, and a sign.
#[tactic(auto, unfolding(parser_machine::specs::Files::superclass_sign))]
pub fn superclass_sign(
    nodes: &mut Nodes,
    stack: &mut Stack,
    id: NodeId,
    position: Position,
    sign: u8,
) -> Result<Option<Mode>, Memory>
    ensures step { let awaited = superclass_sign id position nodes.old.all stack.old sign in
        gives result nodes.new.all stack.new awaited ≡ awaited }
    ensures kept { nodes.new.kept ≡ nodes.old.kept }
{
    if sign != LEFT_BRACE {
        return Ok(None);
    }
    let interfaces = nodes.empty_list();
    let header = nodes.put(Node::Supers {
        position,
        superclass: Some(id),
        interfaces,
    })?;
    class_opened(nodes, stack, Some(header))
}

/// Behind an interface, and a sign; the list holds those before it.
#[tactic(auto, unfolding(parser_machine::specs::Files::interface_sign))]
pub fn interface_sign(
    nodes: &mut Nodes,
    stack: &mut Stack,
    id: NodeId,
    position: Position,
    superclass: Option<NodeId>,
    interfaces: NodeList,
    sign: u8,
) -> Result<Option<Mode>, Memory>
    ensures step { let awaited = interface_sign id position superclass interfaces nodes.old.all stack.old sign in
        gives result nodes.new.all stack.new awaited ≡ awaited }
    ensures kept { nodes.new.kept ≡ nodes.old.kept }
{
    let interfaces = with_item(interfaces, id)?;
    if sign == COMMA {
        stack.push(Entry::SupersOpen {
            position,
            is_extends: false,
            superclass,
            interfaces,
        })?;
        return Ok(Some(Mode::SuperName));
    }
    if sign == LEFT_BRACE {
        let header = nodes.put(Node::Supers {
            position,
            superclass,
            interfaces,
        })?;
        return class_opened(nodes, stack, Some(header));
    }
    Ok(None)
}

/// Behind a superclass.
#[tactic(auto, unfolding(parser_machine::specs::Files::super_ended))]
pub fn superclass_ended(
    nodes: &mut Nodes,
    stack: &mut Stack,
    view: &View,
    id: NodeId,
    position: Position,
    superclass: Option<NodeId>,
    interfaces: NodeList,
) -> Result<Option<Mode>, Memory>
    ensures step { let awaited = super_ended id nodes.old.all (SupersOpen position true superclass interfaces ∷ stack.old)
        (seen view.now) in gives result nodes.new.all stack.new awaited ≡ awaited }
    ensures kept { nodes.new.kept ≡ nodes.old.kept }
{
    match view {
        View::Word(word, _) => {
            if *word != IMPLEMENTS {
                return Ok(None);
            }
            stack.push(Entry::SupersOpen {
                position,
                is_extends: false,
                superclass: Some(id),
                interfaces: nodes.empty_list(),
            })?;
            Ok(Some(Mode::SuperName))
        }
        View::Sign(sign, _) => superclass_sign(nodes, stack, id, position, *sign),
        _ => Ok(None),
    }
}

/// Behind an interface.
#[tactic(auto, unfolding(parser_machine::specs::Files::super_ended))]
pub fn interface_ended(
    nodes: &mut Nodes,
    stack: &mut Stack,
    view: &View,
    id: NodeId,
    position: Position,
    superclass: Option<NodeId>,
    interfaces: NodeList,
) -> Result<Option<Mode>, Memory>
    ensures step { let awaited = super_ended id nodes.old.all (SupersOpen position false superclass interfaces ∷ stack.old)
        (seen view.now) in gives result nodes.new.all stack.new awaited ≡ awaited }
    ensures kept { nodes.new.kept ≡ nodes.old.kept }
{
    let View::Sign(sign, _) = view else {
        return Ok(None);
    };
    interface_sign(nodes, stack, id, position, superclass, interfaces, *sign)
}

/// Behind a super type.
#[tactic(auto, unfolding(parser_machine::specs::Files::super_ended))]
pub fn super_ended(
    nodes: &mut Nodes,
    stack: &mut Stack,
    view: &View,
    id: NodeId,
) -> Result<Option<Mode>, Memory>
    ensures step { let awaited = super_ended id nodes.old.all stack.old (seen view.now) in
        gives result nodes.new.all stack.new awaited ≡ awaited }
    ensures kept { nodes.new.kept ≡ nodes.old.kept }
{
    let Some(entry) = stack.pop() else {
        return Ok(None);
    };
    match entry {
        Entry::SupersOpen {
            position,
            is_extends,
            superclass,
            interfaces,
        } => {
            if is_extends {
                superclass_ended(nodes, stack, view, id, position, superclass, interfaces)
            } else {
                interface_ended(nodes, stack, view, id, position, superclass, interfaces)
            }
        }
        _other => Ok(None),
    }
}

/// Behind the name of a super type, and a sign.
#[tactic(auto, unfolding(parser_machine::specs::Files::super_named_step))]
pub fn super_named_step(
    nodes: &mut Nodes,
    stack: &mut Stack,
    view: &View,
    position: Position,
    name: &SharedName,
) -> Result<Option<Mode>, Memory>
    ensures step { let awaited = super_named_step position name.now nodes.old.all stack.old (seen view.now) in
        gives result nodes.new.all stack.new awaited ≡ awaited }
    ensures kept { nodes.new.kept ≡ nodes.old.kept }
{
    if let View::Sign(sign, _) = view {
        if *sign == LESS {
            if has_type_argument(name) {
                return Ok(Some(Mode::SuperArgumentName {
                    position,
                    name: name.share()?,
                }));
            }
            return Ok(None);
        }
        return super_type_ended(nodes, stack, view, position, name);
    }
    super_type_ended(nodes, stack, view, position, name)
}

/// Behind a super type without an argument.
#[tactic(auto, unfolding(parser_machine::specs::Files::super_ended))]
pub fn super_type_ended(
    nodes: &mut Nodes,
    stack: &mut Stack,
    view: &View,
    position: Position,
    name: &SharedName,
) -> Result<Option<Mode>, Memory>
    ensures step { let awaited = super_ended (length nodes.old.all) (put nodes.old.all (SuperType position name.now None))
        stack.old (seen view.now) in gives result nodes.new.all stack.new awaited ≡ awaited }
    ensures kept { nodes.new.kept ≡ nodes.old.kept }
{
    let id = nodes.put(Node::SuperType {
        position,
        name: name.share()?,
        argument: None,
    })?;
    super_ended(nodes, stack, view, id)
}

/// Behind the `<` of a super type.
#[tactic(auto, unfolding(parser_machine::specs::Files::super_argument_name_step))]
pub fn super_argument_name_step(
    nodes: &mut Nodes,
    stack: &mut Stack,
    view: &View,
    position: Position,
    name: &SharedName,
) -> Result<Option<Mode>, Memory>
    ensures step { let awaited = super_argument_name_step position name.now nodes.old.all stack.old (seen view.now) in
        gives result nodes.new.all stack.new awaited ≡ awaited }
    ensures kept { nodes.new.kept ≡ nodes.old.kept }
{
    let View::Name(argument, argument_position) = view else {
        return Ok(None);
    };
    let argument = nodes.put(Node::TypeArgument {
        position: *argument_position,
        name: argument.share()?,
    })?;
    Ok(Some(Mode::SuperArgumentEnd {
        position,
        name: name.share()?,
        argument,
    }))
}

/// Behind the argument of a super type.
#[tactic(auto, unfolding(parser_machine::specs::Files::super_argument_end_step))]
pub fn super_argument_end_step(
    nodes: &mut Nodes,
    stack: &mut Stack,
    view: &View,
    position: Position,
    name: &SharedName,
    argument: NodeId,
) -> Result<Option<Mode>, Memory>
    ensures step { let awaited = super_argument_end_step position name.now argument nodes.old.all stack.old (seen view.now)
        in gives result nodes.new.all stack.new awaited ≡ awaited }
    ensures kept { nodes.new.kept ≡ nodes.old.kept }
{
    let View::Sign(sign, _) = view else {
        return Ok(None);
    };
    if *sign != GREATER {
        return Ok(None);
    }
    let id = nodes.put(Node::SuperType {
        position,
        name: name.share()?,
        argument: Some(argument),
    })?;
    Ok(Some(Mode::SuperDone { id }))
}
