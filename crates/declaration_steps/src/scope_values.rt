//! Scopes' names in annotations.

ghost use Rattle.std.specs.Prelude.{◌≡◌, ◌∷◌};
ghost use Rattle.parser_machine.specs.Declarations.{define_assign_step, define_name_step, define_open_step, define_other_assign_step, define_other_step, value_dot_step, value_end_step, value_open_step, value_scope_step, value_start_step, valued};
ghost use Rattle.parser_machine.specs.declared.entries.Entry.TheVariants.{DefineSecond, RunsInOpen, ScopeOpen};
ghost use Rattle.parser_nodes.specs.Reported.{gives, seen};

use crate::scope_names::is_name;
use parser_machine::{Entry, Mode};
use parser_nodes::growing_nodes::Nodes;
use parser_nodes::stacks::Stack;
use parser_nodes::views::View;
use scj_base::vocabulary::{ASSIGN, COMMA, DOT, LEFT_PARENTHESIS, RIGHT_PARENTHESIS};
use scj_base::{Memory, NodeId, Position};
use scj_tree::Node;
use type_steps::flags::{with_define_scope, with_runs_in, with_scope};
use type_steps::names::is_word;

/// Behind the value of `@Scope`.
#[tactic(auto, unfolding(parser_machine::specs::Declarations::valued))]
pub fn scope_valued(
    nodes: &mut Nodes,
    stack: &mut Stack,
    id: NodeId,
    sign: u8,
) -> Result<Option<Mode>, Memory>
    ensures step { let awaited = valued id nodes.old.all (ScopeOpen ∷ stack.old) sign in
        gives result nodes.new.all stack.new awaited ≡ awaited }
    ensures kept { nodes.new.kept ≡ nodes.old.kept }
{
    let Some(entry) = stack.pop() else {
        return Ok(None);
    };
    match entry {
        Entry::AnnotationOpen { is_local, flags } => {
            if sign == RIGHT_PARENTHESIS {
                Ok(Some(Mode::FlagsRead {
                    is_local,
                    flags: with_scope(id, flags),
                }))
            } else {
                Ok(None)
            }
        }
        _other => Ok(None),
    }
}

/// Behind the value of `@RunsIn`.
#[tactic(auto, unfolding(parser_machine::specs::Declarations::valued))]
pub fn runs_in_valued(
    nodes: &mut Nodes,
    stack: &mut Stack,
    id: NodeId,
    sign: u8,
) -> Result<Option<Mode>, Memory>
    ensures step { let awaited = valued id nodes.old.all (RunsInOpen ∷ stack.old) sign in
        gives result nodes.new.all stack.new awaited ≡ awaited }
    ensures kept { nodes.new.kept ≡ nodes.old.kept }
{
    let Some(entry) = stack.pop() else {
        return Ok(None);
    };
    match entry {
        Entry::AnnotationOpen { is_local, flags } => {
            if sign == RIGHT_PARENTHESIS {
                Ok(Some(Mode::FlagsRead {
                    is_local,
                    flags: with_runs_in(id, flags),
                }))
            } else {
                Ok(None)
            }
        }
        _other => Ok(None),
    }
}

/// Behind the second value of `@DefineScope`.
#[tactic(auto, unfolding(parser_machine::specs::Declarations::valued))]
pub fn define_valued(
    nodes: &mut Nodes,
    stack: &mut Stack,
    id: NodeId,
    sign: u8,
    position: Position,
    parent_first: bool,
    first: NodeId,
) -> Result<Option<Mode>, Memory>
    ensures step { let awaited = valued id nodes.old.all (DefineSecond position parent_first first ∷ stack.old) sign in
        gives result nodes.new.all stack.new awaited ≡ awaited }
    ensures kept { nodes.new.kept ≡ nodes.old.kept }
{
    let Some(entry) = stack.pop() else {
        return Ok(None);
    };
    match entry {
        Entry::AnnotationOpen { is_local, flags } => {
            if sign == RIGHT_PARENTHESIS {
                let scope = nodes.put(Node::DefineScope {
                    position,
                    first,
                    second: id,
                    parent_first,
                })?;
                Ok(Some(Mode::FlagsRead {
                    is_local,
                    flags: with_define_scope(scope, flags),
                }))
            } else {
                Ok(None)
            }
        }
        _other => Ok(None),
    }
}

/// Behind a scope's name and a sign.
#[tactic(auto, unfolding(parser_machine::specs::Declarations::valued))]
pub fn valued(
    nodes: &mut Nodes,
    stack: &mut Stack,
    id: NodeId,
    sign: u8,
) -> Result<Option<Mode>, Memory>
    ensures step { let awaited = valued id nodes.old.all stack.old sign in
        gives result nodes.new.all stack.new awaited ≡ awaited }
    ensures kept { nodes.new.kept ≡ nodes.old.kept }
{
    let Some(entry) = stack.pop() else {
        return Ok(None);
    };
    match entry {
        Entry::ScopeOpen => scope_valued(nodes, stack, id, sign),
        Entry::RunsInOpen => runs_in_valued(nodes, stack, id, sign),
        Entry::DefineFirst {
            position,
            parent_first,
        } => {
            if sign == COMMA {
                Ok(Some(Mode::DefineOther {
                    position,
                    parent_first,
                    first: id,
                }))
            } else {
                Ok(None)
            }
        }
        Entry::DefineSecond {
            position,
            parent_first,
            first,
        } => define_valued(nodes, stack, id, sign, position, parent_first, first),
        _other => Ok(None),
    }
}

/// Behind a scope's name.
#[tactic(auto, unfolding(parser_machine::specs::Declarations::value_end_step))]
pub fn value_end_step(
    nodes: &mut Nodes,
    stack: &mut Stack,
    view: &View,
    id: NodeId,
) -> Result<Option<Mode>, Memory>
    ensures step { let awaited = value_end_step id nodes.old.all stack.old (seen view.now) in
        gives result nodes.new.all stack.new awaited ≡ awaited }
    ensures kept { nodes.new.kept ≡ nodes.old.kept }
{
    let View::Sign(sign, _) = view else {
        return Ok(None);
    };
    valued(nodes, stack, id, *sign)
}

/// Behind `@Scope` or `@RunsIn`.
#[tactic(auto, unfolding(parser_machine::specs::Declarations::value_open_step))]
pub fn value_open_step(
    nodes: &mut Nodes,
    stack: &mut Stack,
    view: &View,
) -> Result<Option<Mode>, Memory>
    ensures step { let awaited = value_open_step nodes.old.all stack.old (seen view.now) in
        gives result nodes.new.all stack.new awaited ≡ awaited }
    ensures kept { nodes.new.kept ≡ nodes.old.kept }
{
    let View::Sign(sign, _) = view else {
        return Ok(None);
    };
    if *sign == LEFT_PARENTHESIS {
        return Ok(Some(Mode::ValueStart));
    }
    Ok(None)
}

/// Where a scope's name is due.
#[tactic(auto, unfolding(parser_machine::specs::Declarations::value_start_step))]
pub fn value_start_step(
    nodes: &mut Nodes,
    stack: &mut Stack,
    view: &View,
) -> Result<Option<Mode>, Memory>
    ensures step { let awaited = value_start_step nodes.old.all stack.old (seen view.now) in
        gives result nodes.new.all stack.new awaited ≡ awaited }
    ensures kept { nodes.new.kept ≡ nodes.old.kept }
{
    match view {
        View::Text(text, position) => {
            if !is_name(text) {
                return Ok(None);
            }
            let name = nodes.shared(text)?;
            let id = nodes.put(Node::ScopeName {
                position: *position,
                name,
            })?;
            Ok(Some(Mode::ValueRead { id }))
        }
        View::Name(name, position) => {
            if is_word(*name, b"Scope") {
                return Ok(Some(Mode::ValueScope {
                    position: *position,
                }));
            }
            let id = nodes.put(Node::ScopeName {
                position: *position,
                name: name.share()?,
            })?;
            Ok(Some(Mode::ValueRead { id }))
        }
        _ => Ok(None),
    }
}

/// Behind the name `Scope`, which stands at `place`, where a scope's name is due.
#[tactic(auto, unfolding(parser_machine::specs::Declarations::value_scope_step))]
pub fn value_scope_step(
    nodes: &mut Nodes,
    stack: &mut Stack,
    view: &View,
    position: Position,
) -> Result<Option<Mode>, Memory>
    ensures step { let awaited = value_scope_step position nodes.old.all stack.old (seen view.now) in
        gives result nodes.new.all stack.new awaited ≡ awaited }
    ensures kept { nodes.new.kept ≡ nodes.old.kept }
{
    let View::Sign(sign, _) = view else {
        return Ok(None);
    };
    if *sign == DOT {
        return Ok(Some(Mode::ValueDot { position }));
    }
    let name = nodes.shared(b"Scope")?;
    let id = nodes.put(Node::ScopeName { position, name })?;
    valued(nodes, stack, id, *sign)
}

/// Behind `Scope.`.
#[tactic(auto, unfolding(parser_machine::specs::Declarations::value_dot_step))]
pub fn value_dot_step(
    nodes: &mut Nodes,
    stack: &mut Stack,
    view: &View,
    position: Position,
) -> Result<Option<Mode>, Memory>
    ensures step { let awaited = value_dot_step position nodes.old.all stack.old (seen view.now) in
        gives result nodes.new.all stack.new awaited ≡ awaited }
    ensures kept { nodes.new.kept ≡ nodes.old.kept }
{
    let View::Name(name, _) = view else {
        return Ok(None);
    };
    let id = nodes.put(Node::ScopeName {
        position,
        name: name.share()?,
    })?;
    Ok(Some(Mode::ValueRead { id }))
}

/// Behind `@DefineScope`.
#[tactic(auto, unfolding(parser_machine::specs::Declarations::define_open_step))]
pub fn define_open_step(
    nodes: &mut Nodes,
    stack: &mut Stack,
    view: &View,
    position: Position,
) -> Result<Option<Mode>, Memory>
    ensures step { let awaited = define_open_step position nodes.old.all stack.old (seen view.now) in
        gives result nodes.new.all stack.new awaited ≡ awaited }
    ensures kept { nodes.new.kept ≡ nodes.old.kept }
{
    let View::Sign(sign, _) = view else {
        return Ok(None);
    };
    if *sign == LEFT_PARENTHESIS {
        return Ok(Some(Mode::DefineName { position }));
    }
    Ok(None)
}

/// Behind the parenthesis of `@DefineScope`.
#[tactic(auto, unfolding(parser_machine::specs::Declarations::define_name_step))]
pub fn define_name_step(
    nodes: &mut Nodes,
    stack: &mut Stack,
    view: &View,
    position: Position,
) -> Result<Option<Mode>, Memory>
    ensures step { let awaited = define_name_step position nodes.old.all stack.old (seen view.now) in
        gives result nodes.new.all stack.new awaited ≡ awaited }
    ensures kept { nodes.new.kept ≡ nodes.old.kept }
{
    let View::Name(name, _) = view else {
        return Ok(None);
    };
    if is_word(*name, b"name") {
        return Ok(Some(Mode::DefineAssign {
            position,
            parent_first: false,
        }));
    }
    if is_word(*name, b"parent") {
        return Ok(Some(Mode::DefineAssign {
            position,
            parent_first: true,
        }));
    }
    Ok(None)
}

/// Behind the first word of `@DefineScope`.
#[tactic(auto, unfolding(parser_machine::specs::Declarations::define_assign_step))]
pub fn define_assign_step(
    nodes: &mut Nodes,
    stack: &mut Stack,
    view: &View,
    position: Position,
    parent_first: bool,
) -> Result<Option<Mode>, Memory>
    ensures step { let awaited = define_assign_step position parent_first nodes.old.all stack.old (seen view.now) in
        gives result nodes.new.all stack.new awaited ≡ awaited }
    ensures kept { nodes.new.kept ≡ nodes.old.kept }
{
    let View::Sign(sign, _) = view else {
        return Ok(None);
    };
    if *sign == ASSIGN {
        stack.push(Entry::DefineFirst {
            position,
            parent_first,
        })?;
        return Ok(Some(Mode::ValueStart));
    }
    Ok(None)
}

/// Behind the comma of `@DefineScope`.
#[tactic(auto, unfolding(parser_machine::specs::Declarations::define_other_step, parser_machine::specs::Declarations::other_word))]
pub fn define_other_step(
    nodes: &mut Nodes,
    stack: &mut Stack,
    view: &View,
    position: Position,
    parent_first: bool,
    first: NodeId,
) -> Result<Option<Mode>, Memory>
    ensures step { let awaited = define_other_step position parent_first first nodes.old.all stack.old (seen view.now) in
        gives result nodes.new.all stack.new awaited ≡ awaited }
    ensures kept { nodes.new.kept ≡ nodes.old.kept }
{
    let View::Name(name, _) = view else {
        return Ok(None);
    };
    let is_other = if parent_first {
        is_word(*name, b"name")
    } else {
        is_word(*name, b"parent")
    };
    if is_other {
        return Ok(Some(Mode::DefineOtherAssign {
            position,
            parent_first,
            first,
        }));
    }
    Ok(None)
}

/// Behind the second word of `@DefineScope`.
#[tactic(auto, unfolding(parser_machine::specs::Declarations::define_other_assign_step))]
pub fn define_other_assign_step(
    nodes: &mut Nodes,
    stack: &mut Stack,
    view: &View,
    position: Position,
    parent_first: bool,
    first: NodeId,
) -> Result<Option<Mode>, Memory>
    ensures step { let awaited = define_other_assign_step position parent_first first nodes.old.all stack.old
        (seen view.now) in gives result nodes.new.all stack.new awaited ≡ awaited }
    ensures kept { nodes.new.kept ≡ nodes.old.kept }
{
    let View::Sign(sign, _) = view else {
        return Ok(None);
    };
    if *sign == ASSIGN {
        stack.push(Entry::DefineSecond {
            position,
            parent_first,
            first,
        })?;
        return Ok(Some(Mode::ValueStart));
    }
    Ok(None)
}
