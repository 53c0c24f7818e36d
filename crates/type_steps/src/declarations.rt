//! What annotations and modifiers stand before.

ghost use Rattle.std.specs.Prelude.{◌≡◌, ◌∷◌};
ghost use Rattle.parser_machine.specs.Declarations.{class_start, declaration_start, flags_ended, flags_step, member_start, member_word, type_start};
ghost use Rattle.parser_machine.specs.declared.entries.Entry.TheVariants.{MemberOpen};
ghost use Rattle.parser_nodes.specs.Reported.{gives, seen};
ghost use Rattle.scj_tree.specs.Lexemes.{a_word};

use crate::flags::{add_modifier, flags_node, placed};
use crate::types::type_start;
use parser_machine::{Entry, Mode};
use parser_nodes::growing_nodes::Nodes;
use parser_nodes::stacks::Stack;
use parser_nodes::views::View;
use scj_base::vocabulary::{AT, CLASS, LONG, VOID};
use scj_base::{Memory, NodeId, Position};
use scj_tree::{FlagSet, Node};

/// A word where a member is due.
#[tactic(auto, unfolding(parser_machine::specs::Declarations::member_word))]
pub fn member_word(
    nodes: &mut Nodes,
    stack: &mut Stack,
    flags: Option<NodeId>,
    word: u8,
    position: Position,
) -> Result<Option<Mode>, Memory>
    ensures step { let awaited = member_word flags word position nodes.old.all stack.old in
        gives result nodes.new.all stack.new awaited ≡ awaited }
    ensures kept { nodes.new.kept ≡ nodes.old.kept }
{
    let node = match word {
        VOID => Node::VoidType { position },
        LONG => Node::LongType { position },
        _ => return member_type(nodes, stack, flags, word, position),
    };
    let result_type = nodes.put(node)?;
    Ok(Some(Mode::ResultDone { flags, result_type }))
}

/// A word where the type of a member is due.
#[tactic(auto, unfolding(parser_machine::specs::Declarations::type_start))]
pub fn member_type(
    nodes: &mut Nodes,
    stack: &mut Stack,
    flags: Option<NodeId>,
    word: u8,
    position: Position,
) -> Result<Option<Mode>, Memory>
    ensures step { let awaited = type_start nodes.old.all (MemberOpen flags ∷ stack.old) (a_word word position) in
        gives result nodes.new.all stack.new awaited ≡ awaited }
    ensures kept { nodes.new.kept ≡ nodes.old.kept }
{
    stack.push(Entry::MemberOpen { flags })?;
    let view = View::Word(word, position);
    type_start(nodes, stack, &view)
}

/// Where a member is due.
#[tactic(auto, unfolding(parser_machine::specs::Declarations::member_start))]
pub fn member_start(
    nodes: &mut Nodes,
    stack: &mut Stack,
    view: &View,
    flags: Option<NodeId>,
) -> Result<Option<Mode>, Memory>
    ensures step { let awaited = member_start flags nodes.old.all stack.old (seen view.now) in
        gives result nodes.new.all stack.new awaited ≡ awaited }
    ensures kept { nodes.new.kept ≡ nodes.old.kept }
{
    if let View::Word(word, position) = view {
        return member_word(nodes, stack, flags, *word, *position);
    }
    stack.push(Entry::MemberOpen { flags })?;
    type_start(nodes, stack, view)
}

/// Where a class is due.
#[tactic(auto, unfolding(parser_machine::specs::Declarations::class_start))]
pub fn class_start(
    nodes: &mut Nodes,
    stack: &mut Stack,
    view: &View,
    flags: Option<NodeId>,
) -> Result<Option<Mode>, Memory>
    ensures step { let awaited = class_start flags nodes.old.all stack.old (seen view.now) in
        gives result nodes.new.all stack.new awaited ≡ awaited }
    ensures kept { nodes.new.kept ≡ nodes.old.kept }
{
    let View::Word(word, _) = view else {
        return Ok(None);
    };
    if *word == CLASS {
        return Ok(Some(Mode::ClassName { flags }));
    }
    Ok(None)
}

/// Where a declaration is due, behind its flags.
#[tactic(auto, unfolding(parser_machine::specs::Declarations::declaration_start))]
pub fn declaration_start(
    nodes: &mut Nodes,
    stack: &mut Stack,
    view: &View,
    flags: Option<NodeId>,
) -> Result<Option<Mode>, Memory>
    ensures step { let awaited = declaration_start flags nodes.old.all stack.old (seen view.now) in
        gives result nodes.new.all stack.new awaited ≡ awaited }
    ensures kept { nodes.new.kept ≡ nodes.old.kept }
{
    let Some(entry) = stack.pop() else {
        return Ok(None);
    };
    match entry {
        Entry::FileOpen { classes } => {
            stack.push(Entry::FileOpen { classes })?;
            class_start(nodes, stack, view, flags)
        }
        Entry::ClassBody {
            flags: class_flags,
            position,
            name,
            header,
            members,
        } => {
            stack.push(Entry::ClassBody {
                flags: class_flags,
                position,
                name,
                header,
                members,
            })?;
            member_start(nodes, stack, view, flags)
        }
        Entry::ParametersOpen { position, list } => {
            stack.push(Entry::ParametersOpen { position, list })?;
            stack.push(Entry::ParameterOpen { flags })?;
            type_start(nodes, stack, view)
        }
        Entry::Simple => {
            stack.push(Entry::Simple)?;
            stack.push(Entry::LocalOpen { flags })?;
            type_start(nodes, stack, view)
        }
        _other => Ok(None),
    }
}

/// Behind flags.
#[tactic(auto, unfolding(parser_machine::specs::Declarations::flags_ended, scj_tree::specs::Terminals::with_flags, scj_tree::specs::Terminals::flags_number))]
pub fn flags_ended(
    nodes: &mut Nodes,
    stack: &mut Stack,
    view: &View,
    flags: FlagSet,
) -> Result<Option<Mode>, Memory>
    ensures step { let awaited = flags_ended flags nodes.old.all stack.old (seen view.now) in
        gives result nodes.new.all stack.new awaited ≡ awaited }
    ensures kept { nodes.new.kept ≡ nodes.old.kept }
{
    if let Some(node) = flags_node(&flags) {
        let id = nodes.put(node)?;
        return declaration_start(nodes, stack, view, Some(id));
    }
    declaration_start(nodes, stack, view, None)
}

/// Behind a row of flags: one more, or what they stand before.
#[tactic(auto, unfolding(parser_machine::specs::Declarations::flags_step))]
pub fn flags_step(
    nodes: &mut Nodes,
    stack: &mut Stack,
    view: &View,
    is_local: bool,
    flags: FlagSet,
) -> Result<Option<Mode>, Memory>
    ensures step { let awaited = flags_step is_local flags nodes.old.all stack.old (seen view.now) in
        gives result nodes.new.all stack.new awaited ≡ awaited }
    ensures kept { nodes.new.kept ≡ nodes.old.kept }
{
    match view {
        View::Word(word, position) => {
            if let Some(more) = add_modifier(is_local, *word, &flags) {
                return Ok(Some(Mode::FlagsRead {
                    is_local,
                    flags: placed(*position, more),
                }));
            }
            flags_ended(nodes, stack, view, flags)
        }
        View::Sign(sign, position) => {
            if *sign == AT {
                stack.push(Entry::AnnotationOpen {
                    is_local,
                    flags: placed(*position, flags),
                })?;
                return Ok(Some(Mode::At {
                    position: *position,
                }));
            }
            flags_ended(nodes, stack, view, flags)
        }
        _ => flags_ended(nodes, stack, view, flags),
    }
}
