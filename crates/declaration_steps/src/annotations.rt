//! Annotations.

ghost use Rattle.std.specs.Prelude.{◌≡◌};
ghost use Rattle.parser_machine.specs.Declarations.{annotation_named, at_step, define_scope_named, pair_ended, plain_assigned_step, plain_dot_step, plain_end_step, plain_ended, plain_first_step, plain_name_step, plain_next_step, plain_open_step, plain_path_step, plain_value_step, plain_without, runs_in_named, scope_named};
ghost use Rattle.parser_nodes.specs.Reported.{gives, seen};

use parser_machine::{Entry, Mode};
use parser_nodes::growing_nodes::Nodes;
use parser_nodes::stacks::Stack;
use parser_nodes::views::View;
use scj_base::vocabulary::{ASSIGN, COMMA, DOT, FALSE, LEFT_PARENTHESIS, RIGHT_PARENTHESIS, TRUE};
use scj_base::{Memory, Position, SharedName};
use scj_tree::FlagSet;
use type_steps::declarations::flags_step;
use type_steps::names::{is_effectless, is_word};

/// Behind the name `Scope` of an annotation.
#[tactic(auto, unfolding(parser_machine::specs::Declarations::scope_named))]
pub fn scope_named(
    nodes: &mut Nodes,
    stack: &mut Stack,
    is_local: bool,
    flags: FlagSet,
) -> Result<Option<Mode>, Memory>
    ensures step { let awaited = scope_named is_local flags nodes.old.all stack.old in
        gives result nodes.new.all stack.new awaited ≡ awaited }
    ensures kept { nodes.new.kept ≡ nodes.old.kept }
{
    if let Some(_) = flags.scope {
        return Ok(None);
    }
    stack.push(Entry::AnnotationOpen { is_local, flags })?;
    stack.push(Entry::ScopeOpen)?;
    Ok(Some(Mode::ValueOpen))
}

/// Behind the name `RunsIn` of an annotation.
#[tactic(auto, unfolding(parser_machine::specs::Declarations::runs_in_named))]
pub fn runs_in_named(
    nodes: &mut Nodes,
    stack: &mut Stack,
    is_local: bool,
    flags: FlagSet,
) -> Result<Option<Mode>, Memory>
    ensures step { let awaited = runs_in_named is_local flags nodes.old.all stack.old in
        gives result nodes.new.all stack.new awaited ≡ awaited }
    ensures kept { nodes.new.kept ≡ nodes.old.kept }
{
    if let Some(_) = flags.runs_in {
        return Ok(None);
    }
    stack.push(Entry::AnnotationOpen { is_local, flags })?;
    stack.push(Entry::RunsInOpen)?;
    Ok(Some(Mode::ValueOpen))
}

/// Behind the name `DefineScope` of an annotation.
#[tactic(auto, unfolding(parser_machine::specs::Declarations::define_scope_named))]
pub fn define_scope_named(
    nodes: &mut Nodes,
    stack: &mut Stack,
    position: Position,
    is_local: bool,
    flags: FlagSet,
) -> Result<Option<Mode>, Memory>
    ensures step { let awaited = define_scope_named position is_local flags nodes.old.all stack.old in
        gives result nodes.new.all stack.new awaited ≡ awaited }
    ensures kept { nodes.new.kept ≡ nodes.old.kept }
{
    if let Some(_) = flags.define_scope {
        return Ok(None);
    }
    stack.push(Entry::AnnotationOpen { is_local, flags })?;
    Ok(Some(Mode::DefineOpen { position }))
}

/// Behind the name of an annotation, whose `@` stands at `place`.
#[tactic(auto, unfolding(parser_machine::specs::Declarations::annotation_named))]
pub fn annotation_named(
    nodes: &mut Nodes,
    stack: &mut Stack,
    position: Position,
    name: &SharedName,
    is_local: bool,
    flags: FlagSet,
) -> Result<Option<Mode>, Memory>
    ensures step { let awaited = annotation_named position name.now is_local flags nodes.old.all stack.old in
        gives result nodes.new.all stack.new awaited ≡ awaited }
    ensures kept { nodes.new.kept ≡ nodes.old.kept }
{
    if is_effectless(name) {
        stack.push(Entry::AnnotationOpen { is_local, flags })?;
        return Ok(Some(Mode::PlainOpen));
    }
    if is_word(name, b"Scope") {
        return scope_named(nodes, stack, is_local, flags);
    }
    if is_word(name, b"RunsIn") {
        return runs_in_named(nodes, stack, is_local, flags);
    }
    if is_word(name, b"DefineScope") {
        return define_scope_named(nodes, stack, position, is_local, flags);
    }
    Ok(None)
}

/// Behind `@`.
#[tactic(auto, unfolding(parser_machine::specs::Declarations::at_step))]
pub fn at_step(
    nodes: &mut Nodes,
    stack: &mut Stack,
    view: &View,
    position: Position,
) -> Result<Option<Mode>, Memory>
    ensures step { let awaited = at_step position nodes.old.all stack.old (seen view.now) in
        gives result nodes.new.all stack.new awaited ≡ awaited }
    ensures kept { nodes.new.kept ≡ nodes.old.kept }
{
    let View::Name(name, _) = view else {
        return Ok(None);
    };
    let Some(entry) = stack.pop() else {
        return Ok(None);
    };
    match entry {
        Entry::AnnotationOpen { is_local, flags } => annotation_named(
            nodes, stack, position, *name, is_local, flags,
        ),
        _other => Ok(None),
    }
}

/// Behind the parentheses of an annotation without effect.
#[tactic(auto, unfolding(parser_machine::specs::Declarations::plain_ended))]
pub fn plain_ended(nodes: &mut Nodes, stack: &mut Stack) -> Result<Option<Mode>, Memory>
    ensures step { let awaited = plain_ended nodes.old.all stack.old in
        gives result nodes.new.all stack.new awaited ≡ awaited }
    ensures kept { nodes.new.kept ≡ nodes.old.kept }
{
    let Some(entry) = stack.pop() else {
        return Ok(None);
    };
    match entry {
        Entry::AnnotationOpen { is_local, flags } => Ok(Some(Mode::FlagsRead { is_local, flags })),
        _other => Ok(None),
    }
}

/// Behind an annotation without effect and without parentheses.
#[tactic(auto, unfolding(parser_machine::specs::Declarations::plain_without))]
pub fn plain_without(
    nodes: &mut Nodes,
    stack: &mut Stack,
    view: &View,
) -> Result<Option<Mode>, Memory>
    ensures step { let awaited = plain_without nodes.old.all stack.old (seen view.now) in
        gives result nodes.new.all stack.new awaited ≡ awaited }
    ensures kept { nodes.new.kept ≡ nodes.old.kept }
{
    let Some(entry) = stack.pop() else {
        return Ok(None);
    };
    match entry {
        Entry::AnnotationOpen { is_local, flags } => flags_step(
            nodes, stack, view, is_local, flags,
        ),
        _other => Ok(None),
    }
}

/// Behind the name of an annotation without effect.
#[tactic(auto, unfolding(parser_machine::specs::Declarations::plain_open_step))]
pub fn plain_open_step(
    nodes: &mut Nodes,
    stack: &mut Stack,
    view: &View,
) -> Result<Option<Mode>, Memory>
    ensures step { let awaited = plain_open_step nodes.old.all stack.old (seen view.now) in
        gives result nodes.new.all stack.new awaited ≡ awaited }
    ensures kept { nodes.new.kept ≡ nodes.old.kept }
{
    if let View::Sign(sign, _) = view {
        if *sign == LEFT_PARENTHESIS {
            return Ok(Some(Mode::PlainFirst));
        }
        return plain_without(nodes, stack, view);
    }
    plain_without(nodes, stack, view)
}

/// Behind a pair.
#[tactic(auto, unfolding(parser_machine::specs::Declarations::pair_ended))]
pub fn pair_ended(nodes: &mut Nodes, stack: &mut Stack, sign: u8) -> Result<Option<Mode>, Memory>
    ensures step { let awaited = pair_ended nodes.old.all stack.old sign in
        gives result nodes.new.all stack.new awaited ≡ awaited }
    ensures kept { nodes.new.kept ≡ nodes.old.kept }
{
    if sign == COMMA {
        return Ok(Some(Mode::PlainNext));
    }
    if sign == RIGHT_PARENTHESIS {
        return plain_ended(nodes, stack);
    }
    Ok(None)
}

/// Where a pair's value is due.
#[tactic(auto, unfolding(parser_machine::specs::Declarations::plain_value_step))]
pub fn plain_value_step(
    nodes: &mut Nodes,
    stack: &mut Stack,
    view: &View,
) -> Result<Option<Mode>, Memory>
    ensures step { let awaited = plain_value_step nodes.old.all stack.old (seen view.now) in
        gives result nodes.new.all stack.new awaited ≡ awaited }
    ensures kept { nodes.new.kept ≡ nodes.old.kept }
{
    match view {
        View::Text(_, _) => Ok(Some(Mode::PlainEnd)),
        View::Word(word, _) => {
            if *word == TRUE || *word == FALSE {
                Ok(Some(Mode::PlainEnd))
            } else {
                Ok(None)
            }
        }
        _ => Ok(None),
    }
}

/// Where a pair is due.
#[tactic(auto, unfolding(parser_machine::specs::Declarations::plain_next_step))]
pub fn plain_next_step(
    nodes: &mut Nodes,
    stack: &mut Stack,
    view: &View,
) -> Result<Option<Mode>, Memory>
    ensures step { let awaited = plain_next_step nodes.old.all stack.old (seen view.now) in
        gives result nodes.new.all stack.new awaited ≡ awaited }
    ensures kept { nodes.new.kept ≡ nodes.old.kept }
{
    if let View::Name(_, _) = view {
        return Ok(Some(Mode::PlainName));
    }
    plain_value_step(nodes, stack, view)
}

/// Behind the parenthesis of an annotation without effect.
#[tactic(auto, unfolding(parser_machine::specs::Declarations::plain_first_step))]
pub fn plain_first_step(
    nodes: &mut Nodes,
    stack: &mut Stack,
    view: &View,
) -> Result<Option<Mode>, Memory>
    ensures step { let awaited = plain_first_step nodes.old.all stack.old (seen view.now) in
        gives result nodes.new.all stack.new awaited ≡ awaited }
    ensures kept { nodes.new.kept ≡ nodes.old.kept }
{
    if let View::Sign(sign, _) = view {
        if *sign == RIGHT_PARENTHESIS {
            return plain_ended(nodes, stack);
        }
        return Ok(None);
    }
    plain_next_step(nodes, stack, view)
}

/// Behind a name of a pair's value.
#[tactic(auto, unfolding(parser_machine::specs::Declarations::plain_path_step))]
pub fn plain_path_step(
    nodes: &mut Nodes,
    stack: &mut Stack,
    view: &View,
) -> Result<Option<Mode>, Memory>
    ensures step { let awaited = plain_path_step nodes.old.all stack.old (seen view.now) in
        gives result nodes.new.all stack.new awaited ≡ awaited }
    ensures kept { nodes.new.kept ≡ nodes.old.kept }
{
    let View::Sign(sign, _) = view else {
        return Ok(None);
    };
    if *sign == DOT {
        return Ok(Some(Mode::PlainDot));
    }
    pair_ended(nodes, stack, *sign)
}

/// Behind a name at the begin of a pair.
#[tactic(auto, unfolding(parser_machine::specs::Declarations::plain_name_step))]
pub fn plain_name_step(
    nodes: &mut Nodes,
    stack: &mut Stack,
    view: &View,
) -> Result<Option<Mode>, Memory>
    ensures step { let awaited = plain_name_step nodes.old.all stack.old (seen view.now) in
        gives result nodes.new.all stack.new awaited ≡ awaited }
    ensures kept { nodes.new.kept ≡ nodes.old.kept }
{
    let View::Sign(sign, _) = view else {
        return Ok(None);
    };
    if *sign == ASSIGN {
        return Ok(Some(Mode::PlainAssigned));
    }
    plain_path_step(nodes, stack, view)
}

/// Behind the `=` of a pair.
#[tactic(auto, unfolding(parser_machine::specs::Declarations::plain_assigned_step))]
pub fn plain_assigned_step(
    nodes: &mut Nodes,
    stack: &mut Stack,
    view: &View,
) -> Result<Option<Mode>, Memory>
    ensures step { let awaited = plain_assigned_step nodes.old.all stack.old (seen view.now) in
        gives result nodes.new.all stack.new awaited ≡ awaited }
    ensures kept { nodes.new.kept ≡ nodes.old.kept }
{
    if let View::Name(_, _) = view {
        return Ok(Some(Mode::PlainPath));
    }
    plain_value_step(nodes, stack, view)
}

/// Behind a dot in a pair's value.
#[tactic(auto, unfolding(parser_machine::specs::Declarations::plain_dot_step))]
pub fn plain_dot_step(
    nodes: &mut Nodes,
    stack: &mut Stack,
    view: &View,
) -> Result<Option<Mode>, Memory>
    ensures step { let awaited = plain_dot_step nodes.old.all stack.old (seen view.now) in
        gives result nodes.new.all stack.new awaited ≡ awaited }
    ensures kept { nodes.new.kept ≡ nodes.old.kept }
{
    if let View::Name(_, _) = view {
        return Ok(Some(Mode::PlainPath));
    }
    Ok(None)
}

/// Behind a pair's value that is no name.
#[tactic(auto, unfolding(parser_machine::specs::Declarations::plain_end_step))]
pub fn plain_end_step(
    nodes: &mut Nodes,
    stack: &mut Stack,
    view: &View,
) -> Result<Option<Mode>, Memory>
    ensures step { let awaited = plain_end_step nodes.old.all stack.old (seen view.now) in
        gives result nodes.new.all stack.new awaited ≡ awaited }
    ensures kept { nodes.new.kept ≡ nodes.old.kept }
{
    let View::Sign(sign, _) = view else {
        return Ok(None);
    };
    pair_ended(nodes, stack, *sign)
}
