//! Constructors.

ghost use Rattle.std.specs.Prelude.{◌≡◌, [], is_some, option_map, option_copied, option_and_then, unwrap_or};
ghost use Rattle.scj_rules.specs.Definitions.{read};
ghost use Rattle.scj_rules.specs.Views.{constructor_at, super_arguments, parameters_at, DeclaredConstructor};

use scj_base::NodeId;
use scj_tree::{Node, Program};

/// Whether a node declares a constructor.
#[tactic(auto, unfolding(scj_rules::specs::Views::constructor_of))]
pub fn is_constructor(program: &Program, id: NodeId) -> bool
    ensures { result ≡ is_some (constructor_at program.now.nodes id) }
{
    match program.get(id) {
        Some(Node::Constructor { .. }) => true,
        _ => false,
    }
}

/// The node of the parameters of the constructor at a node, if it has any.
#[tactic(auto, unfolding(scj_rules::specs::Views::constructor_of))]
pub fn constructor_parameters(program: &Program, id: NodeId) -> Option<NodeId>
    ensures { parameters_at program.now.nodes result ≡ unwrap_or
        (option_map (λ (c : DeclaredConstructor). c.parameters) (constructor_at program.now.nodes id)) [] }
{
    match program.get(id)? {
        Node::Constructor { parameters, .. } => *parameters,
        _ => None,
    }
}

/// The node of the super call that the constructor at a node writes.
#[tactic(auto, unfolding(scj_rules::specs::Views::constructor_of))]
fn super_call(program: &Program, id: NodeId) -> Option<NodeId>
    ensures { option_and_then (read program.now.nodes super_arguments) result ≡ option_and_then
        (λ (c : DeclaredConstructor). c.super_call) (constructor_at program.now.nodes id) }
{
    match program.get(id)? {
        Node::Constructor { super_call, .. } => *super_call,
        _ => None,
    }
}

/// The arguments at a node that is a super call.
#[tactic(auto, unfolding(scj_rules::specs::Views::super_arguments))]
fn arguments(program: &Program, id: NodeId) -> Option<&[NodeId]>
    ensures { option_copied result ≡ read program.now.nodes super_arguments id }
{
    match program.get(id)? {
        Node::SuperCall { arguments, .. } => Some(arguments.items()),
        _ => None,
    }
}

/// The arguments of the super call that the constructor at a node writes, if it writes one.
pub fn super_call_arguments(program: &Program, id: NodeId) -> Option<&[NodeId]>
    ensures { option_copied result ≡ option_and_then (λ (c : DeclaredConstructor). c.super_call)
        (constructor_at program.now.nodes id) }
{
    arguments(program, super_call(program, id)?)
}
