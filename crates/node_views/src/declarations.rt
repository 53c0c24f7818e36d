//! Parameters, locals and fields.

ghost use Rattle.std.specs.Prelude.{◌≡◌};
ghost use Rattle.scj_rules.specs.Views.{declared, variable_at, field_at};

use crate::words::{modifiers_at, type_at};
use scj_base::{Name, NodeId, Position};
use scj_rules::Declared;
use scj_tree::{Node, Program};

/// What is declared by these parts of a declaration.
pub fn declared(
    program: &Program,
    node: NodeId,
    position: Position,
    name: Name,
    flags: Option<NodeId>,
    declared_type: NodeId,
) -> Declared
    ensures { result ≡ declared program.now.nodes node position name flags declared_type }
{
    Declared {
        node,
        position,
        name,
        modifiers: modifiers_at(program, flags),
        declared_type: type_at(program, declared_type),
    }
}

/// The parameter or local that a node declares.
#[tactic(auto, unfolding(scj_rules::specs::Views::variable_of))]
pub fn variable_at(program: &Program, id: NodeId) -> Option<Declared>
    ensures { result ≡ variable_at program.now.nodes id }
{
    match program.get(id)? {
        Node::Parameter {
            position,
            name,
            flags,
            declared_type,
        }
        | Node::Local {
            position,
            name,
            flags,
            declared_type,
        }
        | Node::LocalWithValue {
            name_position: position,
            name,
            flags,
            declared_type,
            ..
        } => Some(declared(program, id, *position, *name.get(), *flags, *declared_type)),
        _ => None,
    }
}

/// The field that a node declares.
#[tactic(auto, unfolding(scj_rules::specs::Views::field_of))]
pub fn field_at(program: &Program, id: NodeId) -> Option<Declared>
    ensures { result ≡ field_at program.now.nodes id }
{
    match program.get(id)? {
        Node::Field {
            position,
            name,
            flags,
            declared_type,
            ..
        } => Some(declared(program, id, *position, *name.get(), *flags, *declared_type)),
        _ => None,
    }
}
