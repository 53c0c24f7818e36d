//! Places, annotations and modifiers, and types, as they are written.

ghost use Rattle.std.specs.Prelude.{◌≡◌};
ghost use Rattle.scj_rules.specs.Definitions.{read, written_of};
ghost use Rattle.scj_rules.specs.Views.{position_at, modifiers_at, modifiers_of, type_at, type_of_node};

use scj_base::{NodeId, Position};
use scj_rules::{Modifiers, Written, WrittenType};
use scj_tree::{Node, Program};

/// Where reports name a node.
pub fn position_at(program: &Program, id: NodeId) -> Position
    ensures { result ≡ position_at program.now.nodes id }
{
    match program.get(id) {
        Some(node) => node.position(),
        None => Position {
            file: 0,
            line: 0,
            col: 0,
        },
    }
}

/// The name of a scope that a node writes.
#[tactic(auto, unfolding(scj_rules::specs::Definitions::written_of))]
pub fn scope_written(program: &Program, value: NodeId) -> Option<Written>
    ensures { result ≡ read program.now.nodes written_of value }
{
    match program.get(value)? {
        Node::ScopeName { position, name } => Some(Written {
            name: *name.get(),
            position: *position,
        }),
        _ => None,
    }
}

/// The annotations and modifiers that a node writes.
#[tactic(auto, unfolding(scj_rules::specs::Views::modifiers_of))]
fn modifiers(program: &Program, flags: NodeId) -> Option<Modifiers>
    ensures { result ≡ read program.now.nodes (modifiers_of program.now.nodes) flags }
{
    match program.get(flags)? {
        Node::Flags {
            position: _,
            define_scope,
            scope,
            runs_in,
            is_static,
            is_abstract,
            is_synchronized,
        } => Some(Modifiers {
            defines_scope: define_scope.is_some(),
            scope: scope.and_then(|value| scope_written(program, value)),
            runs_in: runs_in.and_then(|value| scope_written(program, value)),
            is_static: *is_static,
            is_abstract: *is_abstract,
            is_synchronized: *is_synchronized,
        }),
        _ => None,
    }
}

/// The annotations and modifiers before a declaration.
pub fn modifiers_at(program: &Program, flags: Option<NodeId>) -> Modifiers
    ensures { result ≡ modifiers_at program.now.nodes flags }
{
    let written = match flags {
        Some(flags) => modifiers(program, flags),
        None => None,
    };
    match written {
        Some(modifiers) => modifiers,
        None => Modifiers {
            defines_scope: false,
            scope: None,
            runs_in: None,
            is_static: false,
            is_abstract: false,
            is_synchronized: false,
        },
    }
}

/// The type that a node writes.
#[tactic(auto, unfolding(scj_rules::specs::Views::type_of_node))]
fn type_of_node(node: &Node) -> Option<WrittenType>
    ensures { result ≡ type_of_node node.now }
{
    match node {
        Node::IntType { is_array: true, .. } => Some(WrittenType::IntArray),
        Node::IntType { .. } => Some(WrittenType::Int),
        Node::BooleanType { is_array: true, .. } => Some(WrittenType::BooleanArray),
        Node::BooleanType { .. } => Some(WrittenType::Boolean),
        Node::ClassType {
            name,
            is_array: true,
            ..
        } => Some(WrittenType::ClassArray(*name.get())),
        Node::ClassType { name, .. } => Some(WrittenType::Class(*name.get())),
        Node::VoidType { .. } => Some(WrittenType::Void),
        Node::LongType { .. } => Some(WrittenType::Long),
        _ => None,
    }
}

/// The type of a number of a node; where that is no type, `void`.
pub fn type_at(program: &Program, id: NodeId) -> WrittenType
    ensures { result ≡ type_at program.now.nodes id }
{
    let written = match program.get(id) {
        Some(node) => type_of_node(node),
        None => None,
    };
    match written {
        Some(written) => written,
        None => WrittenType::Void,
    }
}
