//! Statements.

ghost use Rattle.std.specs.Prelude.{◌≡◌, ◌∷◌};
ghost use Rattle.parser_machine.specs.Blocks.{block_ended, first_start, local_ended, local_named_step, name_bracket_step, name_first_step, return_step, statement_sign, statement_start, statement_word, statements_step, target_start, test_open_step};
ghost use Rattle.parser_machine.specs.Operands.{operand_start};
ghost use Rattle.parser_machine.specs.declared.entries.Entry.TheVariants.{ForHead, IfTest, IndexOpen, Target, WhileTest};
ghost use Rattle.parser_machine.specs.declared.modes.Mode.TheVariants.{ForFirst, Operand};
ghost use Rattle.parser_nodes.specs.Reported.{gives, seen};
ghost use Rattle.scj_tree.specs.Lexemes.{a_sign};
ghost use Rattle.scj_tree.specs.Nodes.{put};
ghost use Rattle.scj_tree.specs.declared.nodes.Node.TheVariants.{SimpleName};
ghost use Rattle.std.specs.Prelude.{length};

use expression_steps::operands::{name_step, operand_start};
use parser_machine::{ElementType, Entry, Mode};
use parser_nodes::growing_nodes::Nodes;
use parser_nodes::stacks::Stack;
use parser_nodes::views::View;
use scj_base::vocabulary::{
    ASSIGN, AT, BOOLEAN, FINAL, FOR, IF, INT, LEFT_BRACE, LEFT_BRACKET, LEFT_PARENTHESIS, LESS,
    RETURN, RIGHT_BRACE, RIGHT_BRACKET, SEMICOLON, WHILE,
};
use scj_base::{Memory, NodeId, Position, SharedName};
use scj_tree::Node;
use type_steps::declarations::flags_step;
use type_steps::flags::no_flags;
use type_steps::names::has_type_argument;
use type_steps::types::typed;

/// Where a target is due.
#[tactic(auto, unfolding(parser_machine::specs::Blocks::target_start))]
pub fn target_start(
    nodes: &mut Nodes,
    stack: &mut Stack,
    view: &View,
) -> Result<Option<Mode>, Memory>
    ensures step { let awaited = target_start nodes.old.all stack.old (seen view.now) in
        gives result nodes.new.all stack.new awaited ≡ awaited }
    ensures kept { nodes.new.kept ≡ nodes.old.kept }
{
    if let View::Sign(sign, position) = view {
        if *sign == LEFT_PARENTHESIS {
            stack.push(Entry::Target)?;
            return Ok(Some(Mode::Opened {
                position: *position,
            }));
        }
        return Ok(None);
    }
    stack.push(Entry::Target)?;
    operand_start(nodes, stack, view)
}

/// Where a local without flags, an assignment or a call is due.
#[tactic(auto, unfolding(parser_machine::specs::Blocks::first_start))]
pub fn first_start(
    nodes: &mut Nodes,
    stack: &mut Stack,
    view: &View,
) -> Result<Option<Mode>, Memory>
    ensures step { let awaited = first_start nodes.old.all stack.old (seen view.now) in
        gives result nodes.new.all stack.new awaited ≡ awaited }
    ensures kept { nodes.new.kept ≡ nodes.old.kept }
{
    match view {
        View::Name(name, position) => Ok(Some(Mode::NameFirst {
            position: *position,
            name: name.share()?,
        })),
        View::Word(word, position) => {
            if *word == INT {
                stack.push(Entry::LocalOpen { flags: None })?;
                return Ok(Some(Mode::TypeEnd {
                    position: *position,
                    element: ElementType::Int,
                }));
            }
            if *word == BOOLEAN {
                stack.push(Entry::LocalOpen { flags: None })?;
                return Ok(Some(Mode::TypeEnd {
                    position: *position,
                    element: ElementType::Boolean,
                }));
            }
            target_start(nodes, stack, view)
        }
        _ => target_start(nodes, stack, view),
    }
}

/// Behind a name where a statement is due, and a sign, which is the lexeme.
#[tactic(auto, unfolding(parser_machine::specs::Blocks::name_first_step))]
pub fn name_first_sign(
    nodes: &mut Nodes,
    stack: &mut Stack,
    position: Position,
    name: &SharedName,
    sign: u8,
    sign_position: Position,
) -> Result<Option<Mode>, Memory>
    ensures step { let awaited = name_first_step position name.now nodes.old.all stack.old (a_sign sign sign_position) in
        gives result nodes.new.all stack.new awaited ≡ awaited }
    ensures kept { nodes.new.kept ≡ nodes.old.kept }
{
    if sign == LESS {
        if has_type_argument(name) {
            stack.push(Entry::LocalOpen { flags: None })?;
            return Ok(Some(Mode::TypeArgumentName {
                position,
                name: name.share()?,
            }));
        }
        return Ok(None);
    }
    if sign == LEFT_BRACKET {
        return Ok(Some(Mode::NameBracket {
            position,
            name: name.share()?,
            bracket: sign_position,
        }));
    }
    stack.push(Entry::Target)?;
    let view = View::Sign(sign, sign_position);
    name_step(nodes, stack, &view, position, name)
}

/// Behind a name where a statement is due.
#[tactic(auto, unfolding(parser_machine::specs::Blocks::name_first_step))]
pub fn name_first_step(
    nodes: &mut Nodes,
    stack: &mut Stack,
    view: &View,
    position: Position,
    name: &SharedName,
) -> Result<Option<Mode>, Memory>
    ensures step { let awaited = name_first_step position name.now nodes.old.all stack.old (seen view.now) in
        gives result nodes.new.all stack.new awaited ≡ awaited }
    ensures kept { nodes.new.kept ≡ nodes.old.kept }
{
    match view {
        View::Name(_, _) => {
            let id = nodes.put(Node::ClassType {
                position,
                name: name.share()?,
                argument: None,
                is_array: false,
            })?;
            stack.push(Entry::LocalOpen { flags: None })?;
            typed(nodes, stack, view, id)
        }
        View::Sign(sign, sign_position) => name_first_sign(
            nodes,
            stack,
            position,
            name,
            *sign,
            *sign_position,
        ),
        _ => Ok(None),
    }
}

/// Behind such a name and `[`, which is no `]`: an index.
#[tactic(auto, unfolding(parser_machine::specs::Operands::operand_start))]
pub fn name_index(
    nodes: &mut Nodes,
    stack: &mut Stack,
    view: &View,
    position: Position,
    name: &SharedName,
    bracket: Position,
) -> Result<Option<Mode>, Memory>
    ensures step { let awaited = operand_start (put nodes.old.all (SimpleName position name.now))
        (IndexOpen bracket (length nodes.old.all) ∷ Target ∷ stack.old) (seen view.now) in
        gives result nodes.new.all stack.new awaited ≡ awaited }
    ensures kept { nodes.new.kept ≡ nodes.old.kept }
{
    let array = nodes.put(Node::SimpleName {
        position,
        name: name.share()?,
    })?;
    stack.push(Entry::Target)?;
    stack.push(Entry::IndexOpen {
        position: bracket,
        array,
    })?;
    operand_start(nodes, stack, view)
}

/// Behind a name where a statement is due, and `[`.
#[tactic(auto, unfolding(parser_machine::specs::Blocks::name_bracket_step))]
pub fn name_bracket_step(
    nodes: &mut Nodes,
    stack: &mut Stack,
    view: &View,
    position: Position,
    name: &SharedName,
    bracket: Position,
) -> Result<Option<Mode>, Memory>
    ensures step { let awaited = name_bracket_step position name.now bracket nodes.old.all stack.old (seen view.now) in
        gives result nodes.new.all stack.new awaited ≡ awaited }
    ensures kept { nodes.new.kept ≡ nodes.old.kept }
{
    if let View::Sign(sign, _) = view {
        if *sign == RIGHT_BRACKET {
            let id = nodes.put(Node::ClassType {
                position,
                name: name.share()?,
                argument: None,
                is_array: true,
            })?;
            stack.push(Entry::LocalOpen { flags: None })?;
            return Ok(Some(Mode::TypeDone { id }));
        }
        return name_index(nodes, stack, view, position, name, bracket);
    }
    name_index(nodes, stack, view, position, name, bracket)
}

/// Behind a local without a value.
#[tactic(auto, unfolding(parser_machine::specs::Blocks::local_ended))]
pub fn local_ended(
    nodes: &mut Nodes,
    stack: &mut Stack,
    flags: Option<NodeId>,
    declared_type: NodeId,
    position: Position,
    name: &SharedName,
) -> Result<Option<Mode>, Memory>
    ensures step { let awaited = local_ended flags declared_type position name.now nodes.old.all stack.old in
        gives result nodes.new.all stack.new awaited ≡ awaited }
    ensures kept { nodes.new.kept ≡ nodes.old.kept }
{
    let Some(entry) = stack.pop() else {
        return Ok(None);
    };
    match entry {
        Entry::Simple => {
            let id = nodes.put(Node::Local {
                position,
                name: name.share()?,
                flags,
                declared_type,
            })?;
            Ok(Some(Mode::StatementEnd { id }))
        }
        _other => Ok(None),
    }
}

/// Behind the type and the name of a local.
#[tactic(auto, unfolding(parser_machine::specs::Blocks::local_named_step))]
pub fn local_named_step(
    nodes: &mut Nodes,
    stack: &mut Stack,
    view: &View,
    flags: Option<NodeId>,
    declared_type: NodeId,
    position: Position,
    name: &SharedName,
) -> Result<Option<Mode>, Memory>
    ensures step { let awaited = local_named_step flags declared_type position name.now nodes.old.all stack.old
        (seen view.now) in gives result nodes.new.all stack.new awaited ≡ awaited }
    ensures kept { nodes.new.kept ≡ nodes.old.kept }
{
    let View::Sign(sign, sign_position) = view else {
        return Ok(None);
    };
    if *sign == ASSIGN {
        stack.push(Entry::LocalValue {
            position: *sign_position,
            name_position: position,
            name: name.share()?,
            flags,
            declared_type,
        })?;
        return Ok(Some(Mode::Operand));
    }
    if *sign == SEMICOLON {
        return local_ended(nodes, stack, flags, declared_type, position, name);
    }
    Ok(None)
}

/// Behind `if`, `while` and `for`.
#[tactic(auto, unfolding(parser_machine::specs::Blocks::test_open_step))]
fn test_open_step(
    nodes: &mut Nodes,
    stack: &mut Stack,
    view: &View,
    mode: Mode,
    entry: Entry,
) -> Result<Option<Mode>, Memory>
    ensures step { let awaited = test_open_step mode entry nodes.old.all stack.old (seen view.now) in
        gives result nodes.new.all stack.new awaited ≡ awaited }
    ensures kept { nodes.new.kept ≡ nodes.old.kept }
{
    let View::Sign(sign, _) = view else {
        return Ok(None);
    };
    if *sign != LEFT_PARENTHESIS {
        return Ok(None);
    }
    stack.push(entry)?;
    Ok(Some(mode))
}

/// Behind `if`.
pub fn if_open_step(
    nodes: &mut Nodes,
    stack: &mut Stack,
    view: &View,
    position: Position,
) -> Result<Option<Mode>, Memory>
    ensures step { let awaited = test_open_step Operand (IfTest position) nodes.old.all stack.old (seen view.now) in
        gives result nodes.new.all stack.new awaited ≡ awaited }
    ensures kept { nodes.new.kept ≡ nodes.old.kept }
{
    test_open_step(
        nodes,
        stack,
        view,
        Mode::Operand,
        Entry::IfTest { position },
    )
}

/// Behind `while`.
pub fn while_open_step(
    nodes: &mut Nodes,
    stack: &mut Stack,
    view: &View,
    position: Position,
) -> Result<Option<Mode>, Memory>
    ensures step { let awaited = test_open_step Operand (WhileTest position) nodes.old.all stack.old (seen view.now) in
        gives result nodes.new.all stack.new awaited ≡ awaited }
    ensures kept { nodes.new.kept ≡ nodes.old.kept }
{
    test_open_step(
        nodes,
        stack,
        view,
        Mode::Operand,
        Entry::WhileTest { position },
    )
}

/// Behind `for`.
pub fn for_open_step(
    nodes: &mut Nodes,
    stack: &mut Stack,
    view: &View,
    position: Position,
) -> Result<Option<Mode>, Memory>
    ensures step { let awaited = test_open_step ForFirst (ForHead position) nodes.old.all stack.old (seen view.now) in
        gives result nodes.new.all stack.new awaited ≡ awaited }
    ensures kept { nodes.new.kept ≡ nodes.old.kept }
{
    test_open_step(
        nodes,
        stack,
        view,
        Mode::ForFirst,
        Entry::ForHead { position },
    )
}

/// Behind `return`.
#[tactic(auto, unfolding(parser_machine::specs::Blocks::return_step))]
pub fn return_step(
    nodes: &mut Nodes,
    stack: &mut Stack,
    view: &View,
    position: Position,
) -> Result<Option<Mode>, Memory>
    ensures step { let awaited = return_step position nodes.old.all stack.old (seen view.now) in
        gives result nodes.new.all stack.new awaited ≡ awaited }
    ensures kept { nodes.new.kept ≡ nodes.old.kept }
{
    if let View::Sign(sign, _) = view {
        if *sign == SEMICOLON {
            let id = nodes.put(Node::Return {
                position,
                value: None,
            })?;
            return Ok(Some(Mode::StatementEnd { id }));
        }
        stack.push(Entry::ReturnValue { position })?;
        return operand_start(nodes, stack, view);
    }
    stack.push(Entry::ReturnValue { position })?;
    operand_start(nodes, stack, view)
}

/// A word where a statement is due.
#[tactic(auto, unfolding(parser_machine::specs::Blocks::statement_word))]
pub fn statement_word(
    nodes: &mut Nodes,
    stack: &mut Stack,
    word: u8,
    position: Position,
) -> Result<Option<Mode>, Memory>
    ensures step { let awaited = statement_word word position nodes.old.all stack.old in
        gives result nodes.new.all stack.new awaited ≡ awaited }
    ensures kept { nodes.new.kept ≡ nodes.old.kept }
{
    match word {
        IF => return Ok(Some(Mode::IfOpen { position })),
        WHILE => return Ok(Some(Mode::WhileOpen { position })),
        FOR => return Ok(Some(Mode::ForOpen { position })),
        RETURN => return Ok(Some(Mode::ReturnStart { position })),
        _ => {}
    }
    stack.push(Entry::Simple)?;
    let view = View::Word(word, position);
    if word == FINAL {
        return flags_step(nodes, stack, &view, true, no_flags());
    }
    first_start(nodes, stack, &view)
}

/// A sign where a statement is due.
#[tactic(auto, unfolding(parser_machine::specs::Blocks::statement_sign))]
pub fn statement_sign(
    nodes: &mut Nodes,
    stack: &mut Stack,
    sign: u8,
    position: Position,
) -> Result<Option<Mode>, Memory>
    ensures step { let awaited = statement_sign sign position nodes.old.all stack.old in
        gives result nodes.new.all stack.new awaited ≡ awaited }
    ensures kept { nodes.new.kept ≡ nodes.old.kept }
{
    if sign == LEFT_BRACE {
        stack.push(Entry::BlockOpen {
            position,
            statements: nodes.empty_list(),
        })?;
        return Ok(Some(Mode::InStatements));
    }
    if sign == SEMICOLON {
        let id = nodes.put(Node::Empty { position })?;
        return Ok(Some(Mode::StatementEnd { id }));
    }
    stack.push(Entry::Simple)?;
    let view = View::Sign(sign, position);
    if sign == AT {
        return flags_step(nodes, stack, &view, true, no_flags());
    }
    first_start(nodes, stack, &view)
}

/// Where a statement is due.
#[tactic(auto, unfolding(parser_machine::specs::Blocks::statement_start))]
pub fn statement_start(
    nodes: &mut Nodes,
    stack: &mut Stack,
    view: &View,
) -> Result<Option<Mode>, Memory>
    ensures step { let awaited = statement_start nodes.old.all stack.old (seen view.now) in
        gives result nodes.new.all stack.new awaited ≡ awaited }
    ensures kept { nodes.new.kept ≡ nodes.old.kept }
{
    match view {
        View::Word(word, position) => statement_word(nodes, stack, *word, *position),
        View::Sign(sign, position) => statement_sign(nodes, stack, *sign, *position),
        _ => {
            stack.push(Entry::Simple)?;
            first_start(nodes, stack, view)
        }
    }
}

/// Behind the brace that closes a block.
#[tactic(auto, unfolding(parser_machine::specs::Blocks::block_ended))]
pub fn block_ended(nodes: &mut Nodes, stack: &mut Stack) -> Result<Option<Mode>, Memory>
    ensures step { let awaited = block_ended nodes.old.all stack.old in
        gives result nodes.new.all stack.new awaited ≡ awaited }
    ensures kept { nodes.new.kept ≡ nodes.old.kept }
{
    let Some(entry) = stack.pop() else {
        return Ok(None);
    };
    match entry {
        Entry::BlockOpen {
            position,
            statements,
        } => {
            let id = nodes.put(Node::Block {
                position,
                statements,
            })?;
            Ok(Some(Mode::StatementEnd { id }))
        }
        _other => Ok(None),
    }
}

/// Where a statement or the end of a block is due.
#[tactic(auto, unfolding(parser_machine::specs::Blocks::statements_step))]
pub fn statements_step(
    nodes: &mut Nodes,
    stack: &mut Stack,
    view: &View,
) -> Result<Option<Mode>, Memory>
    ensures step { let awaited = statements_step nodes.old.all stack.old (seen view.now) in
        gives result nodes.new.all stack.new awaited ≡ awaited }
    ensures kept { nodes.new.kept ≡ nodes.old.kept }
{
    if let View::Sign(sign, _) = view {
        if *sign == RIGHT_BRACE {
            return block_ended(nodes, stack);
        }
        return statement_start(nodes, stack, view);
    }
    statement_start(nodes, stack, view)
}
