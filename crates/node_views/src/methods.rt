//! Methods.

ghost use Rattle.std.specs.Prelude.{◌≡◌, [], option_map, option_and_then, unwrap_or};
ghost use Rattle.scj_rules.specs.Definitions.{read};
ghost use Rattle.scj_rules.specs.Views.{method_at, parameters_at, callable_name, DeclaredMethod};

use crate::declarations::declared;
use scj_base::{Name, NodeId};
use scj_rules::{Declared, Written};
use scj_tree::{Node, Program};

/// What is declared of the method at a node.
#[tactic(auto, unfolding(scj_rules::specs::Views::method_of))]
pub fn method_declared(program: &Program, id: NodeId) -> Option<Declared>
    ensures { result ≡ option_map (λ (m : DeclaredMethod). m.declared) (method_at program.now.nodes id) }
{
    match program.get(id)? {
        Node::Method {
            position,
            name,
            flags,
            result_type,
            ..
        } => Some(declared(program, id, *position, *name.get(), *flags, *result_type)),
        _ => None,
    }
}

/// The name of the method at a node.
#[tactic(auto, unfolding(scj_rules::specs::Views::method_of))]
pub fn method_name(program: &Program, id: NodeId) -> Option<Name>
    ensures { result ≡ option_map (λ (m : DeclaredMethod). m.declared.name) (method_at program.now.nodes id) }
{
    match program.get(id)? {
        Node::Method { name, .. } => Some(*name.get()),
        _ => None,
    }
}

/// The body of the method at a node, if it has one.
#[tactic(auto, unfolding(scj_rules::specs::Views::method_of))]
pub fn method_body(program: &Program, id: NodeId) -> Option<NodeId>
    ensures { result ≡ option_and_then (λ (m : DeclaredMethod). m.body) (method_at program.now.nodes id) }
{
    match program.get(id)? {
        Node::Method { body, .. } => *body,
        _ => None,
    }
}

/// The node of the parameters of the method at a node, if it has any.
#[tactic(auto, unfolding(scj_rules::specs::Views::method_of))]
pub fn method_parameters(program: &Program, id: NodeId) -> Option<NodeId>
    ensures { parameters_at program.now.nodes result ≡ unwrap_or
        (option_map (λ (m : DeclaredMethod). m.parameters) (method_at program.now.nodes id)) [] }
{
    match program.get(id)? {
        Node::Method { parameters, .. } => *parameters,
        _ => None,
    }
}

/// The name of the method or constructor at a node, and where it is named.
#[tactic(auto, unfolding(scj_rules::specs::Views::callable_name))]
pub fn callable_name(program: &Program, id: NodeId) -> Option<Written>
    ensures { result ≡ read program.now.nodes callable_name id }
{
    match program.get(id)? {
        Node::Method { position, name, .. } | Node::Constructor { position, name, .. } => Some(
            Written {
                name: *name.get(),
                position: *position,
            },
        ),
        _ => None,
    }
}
