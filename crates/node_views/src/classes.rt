//! Classes.

ghost use Rattle.std.specs.Prelude.{◌≡◌, [], filter_map, option_map, option_and_then, unwrap_or};
ghost use Rattle.scj_rules.specs.Definitions.{read};
ghost use Rattle.scj_rules.specs.Views.{class_at, named_super, named_supers, WrittenClass};

use crate::words::modifiers_at;
use scj_base::{Name, NodeId, Position};
use scj_rules::{Modifiers, Written};
use scj_tree::{Node, Program};

/// The name of the class at a node.
#[tactic(auto, unfolding(scj_rules::specs::Views::class_of))]
pub fn class_name(program: &Program, id: NodeId) -> Option<Name>
    ensures { result ≡ option_map (λ (c : WrittenClass). c.name) (class_at program.now.nodes id) }
{
    match program.get(id)? {
        Node::Class { name, .. } => Some(*name.get()),
        _ => None,
    }
}

/// Where the class at a node is named.
#[tactic(auto, unfolding(scj_rules::specs::Views::class_of))]
pub fn class_position(program: &Program, id: NodeId) -> Option<Position>
    ensures { result ≡ option_map (λ (c : WrittenClass). c.position) (class_at program.now.nodes id) }
{
    match program.get(id)? {
        Node::Class { position, .. } => Some(*position),
        _ => None,
    }
}

/// The annotations and modifiers of the class at a node.
#[tactic(auto, unfolding(scj_rules::specs::Views::class_of))]
pub fn class_modifiers(program: &Program, id: NodeId) -> Option<Modifiers>
    ensures { result ≡ option_map (λ (c : WrittenClass). c.modifiers) (class_at program.now.nodes id) }
{
    match program.get(id)? {
        Node::Class { flags, .. } => Some(modifiers_at(program, *flags)),
        _ => None,
    }
}

/// A class that is named after `extends` or `implements`.
#[tactic(auto, unfolding(scj_rules::specs::Views::named_super))]
pub fn named_super(program: &Program, id: NodeId) -> Option<Written>
    ensures { result ≡ read program.now.nodes named_super id }
{
    match program.get(id)? {
        Node::SuperType { position, name, .. } => Some(Written {
            name: *name.get(),
            position: *position,
        }),
        _ => None,
    }
}

/// The members of the class at a node.
#[tactic(auto, unfolding(scj_rules::specs::Views::class_of))]
pub fn class_members(program: &Program, id: NodeId) -> &[NodeId]
    ensures { result.now ≡ unwrap_or (option_map (λ (c : WrittenClass). c.members) (class_at program.now.nodes id)) [] }
{
    match program.get(id) {
        Some(Node::Class { members, .. }) => members.items(),
        _ => &[],
    }
}

/// What stands after the name of the class at a node.
#[tactic(auto, unfolding(scj_rules::specs::Views::class_of))]
fn header(program: &Program, id: NodeId) -> Option<NodeId>
    ensures extends { option_and_then (λ (c : WrittenClass). c.extends) (class_at program.now.nodes id)
        ≡ option_and_then (λ s. s.0)
        (option_and_then (read program.now.nodes (named_supers program.now.nodes)) result) }
    ensures implements { unwrap_or (option_map (λ (c : WrittenClass). c.implements) (class_at program.now.nodes id))
        [] ≡ unwrap_or
        (option_map (λ s. s.1) (option_and_then (read program.now.nodes (named_supers program.now.nodes)) result)) [] }
{
    match program.get(id)? {
        Node::Class { header, .. } => *header,
        _ => None,
    }
}

/// The class that the class at a node names after `extends`.
#[tactic(auto, unfolding(scj_rules::specs::Views::named_supers))]
pub fn class_extends(program: &Program, id: NodeId) -> Option<Written>
    ensures { result ≡ option_and_then (λ (c : WrittenClass). c.extends) (class_at program.now.nodes id) }
{
    match program.get(header(program, id)?)? {
        Node::Supers { superclass, .. } => match superclass {
            Some(superclass) => named_super(program, *superclass),
            None => None,
        },
        _ => None,
    }
}

/// The nodes after `implements` of the class at a node. [`named_super`] tells what each names.
#[tactic(auto, unfolding(scj_rules::specs::Views::named_supers))]
pub fn interface_nodes(program: &Program, id: NodeId) -> &[NodeId]
    ensures { filter_map (read program.now.nodes named_super) result.now ≡ unwrap_or
        (option_map (λ (c : WrittenClass). c.implements) (class_at program.now.nodes id)) [] }
{
    let supers = match header(program, id) {
        Some(header) => program.get(header),
        None => None,
    };
    match supers {
        Some(Node::Supers { interfaces, .. }) => interfaces.items(),
        _ => &[],
    }
}
