//! The bodies of size methods, and statements that always return (as JLS 14.21, but for what isn't reached).

ghost use Rattle.std.specs.Prelude.{◌≡◌, IfOk, false, is_some};
ghost use Rattle.std.specs.List.{list_any};
ghost use Rattle.scj_tree.specs.Recursion.{lookup};
ghost use Rattle.scj_rules.specs.Definitions.{read};
ghost use Rattle.scj_rules.specs.Words.{holds};
ghost use Rattle.scj_rules.specs.ClassRules.{is_same_type};
ghost use Rattle.scj_rules.specs.declared.views.WrittenType.TheVariants.{Long as long_type, Void as void_type};
ghost use Rattle.scj_rules.specs.Types.{is_true_literal, returns_of};
ghost use Rattle.scj_rules.specs.TypeRules.{is_number, returns_number, is_size_body};
ghost use Rattle.type_words.specs.Returns.{all_returns, returns_next, is_returning_kind};

use scj_base::{Memory, NodeId};
use scj_rules::WrittenType;
use scj_tree::{Node, NodeKind, Program, row_or};
use std::alloc::Global;

/// Whether the type is `void`.
#[tactic(auto, unfolding(scj_rules::specs::ClassRules::is_same_type))]
pub fn is_void(t: &WrittenType) -> bool
    ensures { result ≡ is_same_type t.now void_type }
{
    matches!(t, WrittenType::Void)
}

/// Whether the type is `long`.
#[tactic(auto, unfolding(scj_rules::specs::ClassRules::is_same_type))]
pub fn is_long(t: &WrittenType) -> bool
    ensures { result ≡ is_same_type t.now long_type }
{
    matches!(t, WrittenType::Long)
}

/// Whether a node is a number that is an `int`.
#[tactic(auto, unfolding(scj_rules::specs::TypeRules::is_number))]
fn is_number(program: &Program, id: NodeId) -> bool
    ensures { result ≡ holds (read program.now.nodes is_number id) (λ right. right) }
{
    match program.get(id) {
        Some(
            Node::Number {
                value,
                is_negative,
                ..
            },
        ) => !*is_negative && *value < 2147483648,
        _ => false,
    }
}

/// Whether a node returns one.
#[tactic(auto, unfolding(scj_rules::specs::TypeRules::returns_number))]
fn returns_number(program: &Program, id: NodeId) -> bool
    ensures { result ≡ holds (read program.now.nodes (returns_number program.now.nodes) id) (λ right. right) }
{
    match program.get(id) {
        Some(
            Node::Return {
                value: Some(value),
                ..
            },
        ) => is_number(program, *value),
        _ => false,
    }
}

/// Whether a body is `{ return N; }` of a number.
#[tactic(auto, unfolding(scj_rules::specs::TypeRules::is_size_body))]
pub fn is_size_body(program: &Program, body: NodeId) -> bool
    ensures { result ≡ holds (read program.now.nodes (is_size_body program.now.nodes) body) (λ right. right) }
{
    match program.get(body) {
        Some(Node::Block { statements, .. }) => match statements.items() {
            [statement] => returns_number(program, *statement),
            _ => false,
        },
        _ => false,
    }
}

/// Whether one of these nodes returns.
fn any_returns(returns: &[bool], ids: &[NodeId]) -> bool
    ensures { result ≡ list_any (lookup false returns.now) ids.now }
{
    ids.iter().any(|id| row_or(returns, false, *id))
}

/// Whether the node is the literal `true`.
#[tactic(auto, unfolding(scj_rules::specs::Types::is_true_literal))]
fn is_true(program: &Program, id: NodeId) -> bool
    ensures { result ≡ is_some (read program.now.nodes is_true_literal id) }
{
    matches!(program.get(id), Some(Node::True { .. }))
}

/// Whether a node returns, by what is told of those before it.
#[tactic(auto, unfolding(scj_rules::specs::Types::returns_of))]
fn returns_of(program: &Program, returns: &[bool], node: &Node) -> bool
    ensures { result ≡ returns_of program.now.nodes (lookup false returns.now) node.now }
{
    match node {
        Node::Return { .. } => true,
        Node::Block { statements, .. } => any_returns(returns, statements.items()),
        Node::If {
            then_part,
            else_part: Some(other),
            ..
        } => row_or(returns, false, *then_part) && row_or(returns, false, *other),
        Node::While { condition, .. } => is_true(program, *condition),
        _ => false,
    }
}

/// Whether nodes of this kind may always return.
#[tactic(auto, unfolding(crate::specs::Returns::is_returning_kind))]
fn is_returning_kind(kind: &Option<NodeKind>) -> bool
    ensures { result ≡ is_returning_kind kind.now }
{
    matches!(
        kind,
        Some(NodeKind::Return | NodeKind::Block | NodeKind::If | NodeKind::While)
    )
}

/// Whether the node of a number returns, by what is told of those before it. Its kind is looked at first, since most
/// nodes are no statements.
#[tactic(auto, using(crate::proofs::ReturnLemmas::never_returns))]
fn returns_at(program: &Program, returns: &[bool], id: NodeId) -> bool
    ensures { result ≡ returns_next program.now.nodes id (lookup false returns.now) }
{
    if !is_returning_kind(&program.kind(id)) {
        return false;
    }
    match program.get(id) {
        Some(node) => returns_of(program, returns, node),
        None => false,
    }
}

/// Whether each node always returns.
#[tactic(auto, unfolding(crate::specs::Returns::all_returns, scj_tree::specs::Recursion::bottom_up))]
pub fn returning(alloc: Global, program: &Program) -> Result<Vec<bool>, Memory>
    ensures { IfOk result (λ returns. returns.items ≡ all_returns program.now.nodes) }
{
    let mut returns = vec![in alloc; false; program.len()]?;
    for number in 0..program.len() {
        let known = returns.as_slice();
        let value = returns_at(program, &known[..number], NodeId::at(number as u32));
        returns[number] = value;
    }
    Ok(returns)
}
