//! Single parts of a declaration, where the rest of it isn't asked for.

ghost use Rattle.std.specs.Prelude.{◌≡◌, option_map};
ghost use Rattle.scj_rules.specs.Words.{holds};
ghost use Rattle.scj_rules.specs.Views.{modifiers_at, variable_at, field_at, method_at, DeclaredMethod};
ghost use Rattle.scj_rules.specs.declared.views.Declared.{Declared as Declaration};
ghost use Rattle.node_views.specs.Parts.{naming};

use crate::words::type_at;
use scj_base::NodeId;
use scj_rules::{Written, WrittenType};
use scj_tree::{Node, Program};

/// Whether `static` stands before a declaration.
#[tactic(auto, unfolding(scj_rules::specs::Views::modifiers_of))]
pub fn is_static_at(program: &Program, flags: Option<NodeId>) -> bool
    ensures { result ≡ (modifiers_at program.now.nodes flags).is_static }
{
    let node = match flags {
        Some(flags) => program.get(flags),
        None => None,
    };
    match node {
        Some(Node::Flags { is_static, .. }) => *is_static,
        _ => false,
    }
}

/// Whether `abstract` stands before a declaration.
#[tactic(auto, unfolding(scj_rules::specs::Views::modifiers_of))]
fn is_abstract_at(program: &Program, flags: Option<NodeId>) -> bool
    ensures { result ≡ (modifiers_at program.now.nodes flags).is_abstract }
{
    let node = match flags {
        Some(flags) => program.get(flags),
        None => None,
    };
    match node {
        Some(Node::Flags { is_abstract, .. }) => *is_abstract,
        _ => false,
    }
}

/// Whether a node declares a static field.
#[tactic(auto, unfolding(scj_rules::specs::Views::field_of))]
pub fn is_static_field(program: &Program, id: NodeId) -> bool
    ensures { result ≡ holds (field_at program.now.nodes id) (λ (f : Declaration). f.modifiers.is_static) }
{
    match program.get(id) {
        Some(Node::Field { flags, .. }) => is_static_at(program, *flags),
        _ => false,
    }
}

/// Whether a node declares a static method.
#[tactic(auto, unfolding(scj_rules::specs::Views::method_of))]
pub fn is_static_method(program: &Program, id: NodeId) -> bool
    ensures { result ≡ holds (method_at program.now.nodes id) (λ (m : DeclaredMethod). m.declared.modifiers.is_static) }
{
    match program.get(id) {
        Some(Node::Method { flags, .. }) => is_static_at(program, *flags),
        _ => false,
    }
}

/// Whether a node declares an abstract method.
#[tactic(auto, unfolding(scj_rules::specs::Views::method_of))]
pub fn is_abstract_method(program: &Program, id: NodeId) -> bool
    ensures { result ≡ holds (method_at program.now.nodes id)
        (λ (m : DeclaredMethod). m.declared.modifiers.is_abstract) }
{
    match program.get(id) {
        Some(Node::Method { flags, .. }) => is_abstract_at(program, *flags),
        _ => false,
    }
}

/// The type of the parameter or local that a node declares.
#[tactic(auto, unfolding(scj_rules::specs::Views::variable_of))]
pub fn variable_type(program: &Program, id: NodeId) -> Option<WrittenType>
    ensures { result ≡ option_map (λ (d : Declaration). d.declared_type) (variable_at program.now.nodes id) }
{
    match program.get(id)? {
        Node::Parameter { declared_type, .. }
        | Node::Local { declared_type, .. }
        | Node::LocalWithValue { declared_type, .. } => Some(type_at(program, *declared_type)),
        _ => None,
    }
}

/// The type of the field that a node declares.
#[tactic(auto, unfolding(scj_rules::specs::Views::field_of))]
pub fn field_type(program: &Program, id: NodeId) -> Option<WrittenType>
    ensures { result ≡ option_map (λ (d : Declaration). d.declared_type) (field_at program.now.nodes id) }
{
    match program.get(id)? {
        Node::Field { declared_type, .. } => Some(type_at(program, *declared_type)),
        _ => None,
    }
}

/// The type of the result of the method that a node declares.
#[tactic(auto, unfolding(scj_rules::specs::Views::method_of))]
pub fn result_type(program: &Program, id: NodeId) -> Option<WrittenType>
    ensures { result ≡ option_map (λ (m : DeclaredMethod). m.declared.declared_type) (method_at program.now.nodes id) }
{
    match program.get(id)? {
        Node::Method { result_type, .. } => Some(type_at(program, *result_type)),
        _ => None,
    }
}

/// The name of the parameter or local that a node declares, and where it is named.
#[tactic(auto, unfolding(scj_rules::specs::Views::variable_of))]
pub fn variable_written(program: &Program, id: NodeId) -> Option<Written>
    ensures { result ≡ option_map naming (variable_at program.now.nodes id) }
{
    match program.get(id)? {
        Node::Parameter { position, name, .. }
        | Node::Local { position, name, .. }
        | Node::LocalWithValue {
            name_position: position,
            name,
            ..
        } => Some(Written {
            name: *name.get(),
            position: *position,
        }),
        _ => None,
    }
}

/// The name of the field that a node declares, and where it is named.
#[tactic(auto, unfolding(scj_rules::specs::Views::field_of))]
pub fn field_written(program: &Program, id: NodeId) -> Option<Written>
    ensures { result ≡ option_map naming (field_at program.now.nodes id) }
{
    match program.get(id)? {
        Node::Field { position, name, .. } => Some(Written {
            name: *name.get(),
            position: *position,
        }),
        _ => None,
    }
}
