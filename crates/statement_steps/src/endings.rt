//! Where classes, members and statements end.

ghost use Rattle.std.specs.Prelude.{◌≡◌, ◌∷◌};
ghost use Rattle.parser_machine.specs.Members.{class_ended, member_ended, members_step, statement_ended};
ghost use Rattle.parser_machine.specs.declared.entries.Entry.TheVariants.{BlockOpen, ClassBody, ConstructorBody, MethodBody};
ghost use Rattle.parser_nodes.specs.Reported.{gives, seen};
ghost use Rattle.std.specs.Prelude.{None};
ghost use Rattle.statement_steps.specs.Enclosing.{enclosing as enclosing_node};

use crate::blocks::statements_step;
use crate::enclosing_statements::{enclosing, is_else};
use parser_machine::{Entry, Mode};
use parser_nodes::growing_nodes::Nodes;
use parser_nodes::items::with_item;
use parser_nodes::stacks::Stack;
use parser_nodes::views::View;
use scj_base::vocabulary::RIGHT_BRACE;
use scj_base::{Memory, NodeId, Position, SharedName};
use scj_tree::{Node, NodeList};
use type_steps::declarations::flags_step;
use type_steps::flags::no_flags;

/// Behind the brace that closes a class.
#[tactic(auto, unfolding(parser_machine::specs::Members::class_ended))]
pub fn class_ended(nodes: &mut Nodes, stack: &mut Stack) -> Result<Option<Mode>, Memory>
    ensures step { let awaited = class_ended nodes.old.all stack.old in
        gives result nodes.new.all stack.new awaited ≡ awaited }
    ensures kept { nodes.new.kept ≡ nodes.old.kept }
{
    let Some(entry) = stack.pop() else {
        return Ok(None);
    };
    match entry {
        Entry::ClassBody {
            flags,
            position,
            name,
            header,
            members,
        } => class_read(nodes, stack, flags, position, name, header, members),
        _other => Ok(None),
    }
}

/// Behind a class.
#[tactic(auto, unfolding(parser_machine::specs::Members::class_ended))]
pub fn class_read(
    nodes: &mut Nodes,
    stack: &mut Stack,
    flags: Option<NodeId>,
    position: Position,
    name: SharedName,
    header: Option<NodeId>,
    members: NodeList,
) -> Result<Option<Mode>, Memory>
    ensures step { let awaited = class_ended nodes.old.all (ClassBody flags position name header members ∷ stack.old) in
        gives result nodes.new.all stack.new awaited ≡ awaited }
    ensures kept { nodes.new.kept ≡ nodes.old.kept }
{
    let Some(entry) = stack.pop() else {
        return Ok(None);
    };
    match entry {
        Entry::FileOpen { classes } => {
            let id = nodes.put(Node::Class {
                position,
                name,
                flags,
                header,
                members,
            })?;
            let classes = with_item(classes, id)?;
            stack.push(Entry::FileOpen { classes })?;
            Ok(Some(Mode::InClasses))
        }
        _other => Ok(None),
    }
}

/// Where a member or the end of a class is due.
#[tactic(auto, unfolding(parser_machine::specs::Members::members_step))]
pub fn members_step(
    nodes: &mut Nodes,
    stack: &mut Stack,
    view: &View,
) -> Result<Option<Mode>, Memory>
    ensures step { let awaited = members_step nodes.old.all stack.old (seen view.now) in
        gives result nodes.new.all stack.new awaited ≡ awaited }
    ensures kept { nodes.new.kept ≡ nodes.old.kept }
{
    if let View::Sign(sign, _) = view {
        if *sign == RIGHT_BRACE {
            return class_ended(nodes, stack);
        }
        return flags_step(nodes, stack, view, false, no_flags());
    }
    flags_step(nodes, stack, view, false, no_flags())
}

/// Behind a member with a body.
#[tactic(auto, unfolding(parser_machine::specs::Members::member_ended))]
pub fn member_ended(
    nodes: &mut Nodes,
    stack: &mut Stack,
    view: &View,
    id: NodeId,
) -> Result<Option<Mode>, Memory>
    ensures step { let awaited = member_ended id nodes.old.all stack.old (seen view.now) in
        gives result nodes.new.all stack.new awaited ≡ awaited }
    ensures kept { nodes.new.kept ≡ nodes.old.kept }
{
    let Some(entry) = stack.pop() else {
        return Ok(None);
    };
    match entry {
        Entry::ClassBody {
            flags,
            position,
            name,
            header,
            members,
        } => {
            let members = with_item(members, id)?;
            stack.push(Entry::ClassBody {
                flags,
                position,
                name,
                header,
                members,
            })?;
            members_step(nodes, stack, view)
        }
        _other => Ok(None),
    }
}

/// Behind the body of a method.
#[tactic(auto, unfolding(parser_machine::specs::Members::statement_ended))]
pub fn method_ended(
    nodes: &mut Nodes,
    stack: &mut Stack,
    view: &View,
    id: NodeId,
    flags: Option<NodeId>,
    result_type: NodeId,
    position: Position,
    name: SharedName,
    parameters: Option<NodeId>,
) -> Result<Option<Mode>, Memory>
    ensures step { let awaited = statement_ended id nodes.old.all (MethodBody flags result_type position name parameters
        ∷ stack.old) (seen view.now) in gives result nodes.new.all stack.new awaited ≡ awaited }
    ensures kept { nodes.new.kept ≡ nodes.old.kept }
{
    let id = nodes.put(Node::Method {
        position,
        name,
        flags,
        result_type,
        parameters,
        body: Some(id),
    })?;
    member_ended(nodes, stack, view, id)
}

/// Behind the body of a constructor.
#[tactic(auto, unfolding(parser_machine::specs::Members::statement_ended))]
pub fn constructor_ended(
    nodes: &mut Nodes,
    stack: &mut Stack,
    view: &View,
    id: NodeId,
    flags: Option<NodeId>,
    position: Position,
    name: SharedName,
    parameters: Option<NodeId>,
    super_call: Option<NodeId>,
) -> Result<Option<Mode>, Memory>
    ensures step { let awaited = statement_ended id nodes.old.all
        (ConstructorBody flags position name parameters super_call ∷ stack.old) (seen view.now) in
        gives result nodes.new.all stack.new awaited ≡ awaited }
    ensures kept { nodes.new.kept ≡ nodes.old.kept }
{
    let id = nodes.put(Node::Constructor {
        position,
        name,
        flags,
        parameters,
        super_call,
        body: id,
    })?;
    member_ended(nodes, stack, view, id)
}

/// Behind a statement in a block.
#[tactic(auto, unfolding(parser_machine::specs::Members::statement_ended))]
pub fn block_statement_ended(
    nodes: &mut Nodes,
    stack: &mut Stack,
    view: &View,
    id: NodeId,
    position: Position,
    statements: NodeList,
) -> Result<Option<Mode>, Memory>
    ensures step { let awaited = statement_ended id nodes.old.all (BlockOpen position statements ∷ stack.old)
        (seen view.now) in gives result nodes.new.all stack.new awaited ≡ awaited }
    ensures kept { nodes.new.kept ≡ nodes.old.kept }
{
    let statements = with_item(statements, id)?;
    stack.push(Entry::BlockOpen {
        position,
        statements,
    })?;
    statements_step(nodes, stack, view)
}

/// Behind a statement that no other one ends with.
#[tactic(auto, unfolding(parser_machine::specs::Members::statement_ended, crate::specs::Enclosing::enclosing))]
pub fn whole_ended(
    nodes: &mut Nodes,
    stack: &mut Stack,
    view: &View,
    entry: Entry,
    id: NodeId,
) -> Result<Option<Mode>, Memory>
    requires { enclosing_node entry (seen view.now) id ≡ None }
    ensures step { let awaited = statement_ended id nodes.old.all (entry ∷ stack.old) (seen view.now) in
        gives result nodes.new.all stack.new awaited ≡ awaited }
    ensures kept { nodes.new.kept ≡ nodes.old.kept }
{
    match entry {
        Entry::BlockOpen {
            position,
            statements,
        } => block_statement_ended(nodes, stack, view, id, position, statements),
        Entry::MethodBody {
            flags,
            result_type,
            position,
            name,
            parameters,
        } => method_ended(
            nodes,
            stack,
            view,
            id,
            flags,
            result_type,
            position,
            name,
            parameters,
        ),
        Entry::ConstructorBody {
            flags,
            position,
            name,
            parameters,
            super_call,
        } => constructor_ended(
            nodes, stack, view, id, flags, position, name, parameters, super_call,
        ),
        Entry::IfThen {
            position,
            condition,
        } => {
            if is_else(view) {
                stack.push(Entry::IfElse {
                    position,
                    condition,
                    then_part: id,
                })?;
                return Ok(Some(Mode::StatementStart));
            }
            Ok(None)
        }
        _other => Ok(None),
    }
}

/// Behind a statement.
#[tactic(auto, using(crate::proofs::Enclosed::enclosed), unfolding(parser_machine::specs::Members::statement_ended, crate::specs::Enclosing::enclosing))]
pub fn statement_ended(
    nodes: &mut Nodes,
    stack: &mut Stack,
    view: &View,
    id: NodeId,
) -> Result<Option<Mode>, Memory>
    ensures step { let awaited = statement_ended id nodes.old.all stack.old (seen view.now) in
        gives result nodes.new.all stack.new awaited ≡ awaited }
    ensures kept { nodes.new.kept ≡ nodes.old.kept }
{
    let mut id = id;
    loop {
        let Some(entry) = stack.pop() else {
            return Ok(None);
        };
        let Some(node) = enclosing(&entry, view, id) else {
            return whole_ended(nodes, stack, view, entry, id);
        };
        id = nodes.put(node)?;
    }
}
