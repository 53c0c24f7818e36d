//! The parts of a class's header.

ghost use Rattle.std.specs.Prelude.{◌≡◌, [], filter_map, is_some, IfOk, option_map, option_and_then, unwrap_or, if◌then◌else◌};
ghost use Rattle.scj_rules.specs.Views.{WrittenClass, class_at, constructor_at, named_super};
ghost use Rattle.class_headers.specs.NamedNumbers.{found_under};
ghost use Rattle.class_headers.specs.Rows.{superclass_by, interfaces_by, header_by};
ghost use Rattle.std.specs.List.{find};
ghost use Rattle.scj_builtins.specs.declared.kinds.ClassKind.TheVariants.{Abstract as abstract_class, Concrete as concrete_class};
ghost use Rattle.scj_rules.specs.declared.scopes.Written.{Written as Named};
ghost use Rattle.scj_rules.specs.Definitions.{read};

use crate::filling::Header;
use crate::named_numbers::NamedNumbers;
use node_views::{
    class_extends, class_members, class_modifiers, interface_nodes, is_constructor, named_super,
};
use scj_base::ids::OBJECT;
use scj_base::{ClassId, Memory, NodeId};
use scj_builtins::ClassKind;
use scj_rules::Written;
use scj_tree::Program;
use std::alloc::{AllocError, Global};

/// The superclass that a class names, and `Object` where it names none.
#[tactic(auto, unfolding(crate::specs::Rows::superclass_by))]
fn superclass(names: &NamedNumbers, extends: Option<Written>) -> Option<ClassId>
    ensures { result ≡ superclass_by (found_under names.now) extends }
{
    match extends {
        Some(written) => names.class_of(&written.name),
        None => Some(OBJECT),
    }
}

/// The first constructor among members.
fn first_constructor(program: &Program, members: &[NodeId]) -> Option<NodeId>
    ensures { result ≡ find (λ id. is_some (constructor_at program.now.nodes id)) members.now }
{
    members
        .iter()
        .copied()
        .find(|id| is_constructor(program, *id))
}

/// The kind of a user class.
fn kind(is_abstract: bool) -> ClassKind
    ensures { result ≡ (if is_abstract then abstract_class else concrete_class) }
{
    if is_abstract {
        ClassKind::Abstract
    } else {
        ClassKind::Concrete
    }
}

/// The header of the class at a node.
#[tactic(auto, using(crate::proofs::PartLemmas::parts_are))]
pub fn user_header(program: &Program, names: &NamedNumbers, id: NodeId) -> Option<Header>
    ensures { result ≡ option_map (header_by program.now.nodes (found_under names.now))
        (class_at program.now.nodes id) }
{
    let modifiers = class_modifiers(program, id)?;
    Some(Header {
        node: Some(id),
        kind: kind(modifiers.is_abstract),
        superclass: superclass(names, class_extends(program, id)),
        constructor: first_constructor(program, class_members(program, id)),
    })
}

/// The classes that these nodes name.
fn named_classes(
    alloc: Global,
    program: &Program,
    names: &NamedNumbers,
    nodes: &[NodeId],
) -> Result<Vec<ClassId>, AllocError>
    ensures { IfOk result (λ found. found.items ≡ filter_map
        (λ id. option_and_then (λ (w : Named). found_under names.now w.name) (read program.now.nodes named_super id))
        nodes.now) }
{
    nodes
        .iter()
        .filter_map(|node| interface(program, names, *node))
        .collect(alloc)
}

/// The interfaces that the class at a node names.
pub fn user_interfaces(
    alloc: Global,
    program: &Program,
    names: &NamedNumbers,
    id: NodeId,
) -> Result<Vec<ClassId>, Memory>
    ensures { IfOk result
        (λ found. found.items ≡ interfaces_by (found_under names.now)
        (unwrap_or (option_map (λ (c : WrittenClass). c.implements) (class_at program.now.nodes id)) [])) }
{
    let found = named_classes(alloc, program, names, interface_nodes(program, id))?;
    Ok(found)
}

/// The class that a node names.
fn interface(program: &Program, names: &NamedNumbers, node: NodeId) -> Option<ClassId>
    ensures { result ≡ option_and_then (λ (w : Named). found_under names.now w.name)
        (read program.now.nodes named_super node) }
{
    let written = named_super(program, node)?;
    names.class_of(&written.name)
}
