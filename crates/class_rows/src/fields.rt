//! Fields as rows that are copied.

ghost use Rattle.std.specs.Prelude.{◌≡◌};
ghost use Rattle.class_rows.specs.Fields.{found_field};

use method_rows::nothing;
use node_views::field_at;
use scj_base::{ClassId, NodeId};
use scj_rules::{Declared, FoundField, WrittenType};
use scj_tree::Program;

/// A field that is found for a class.
#[derive(Clone, Copy, Debug)]
pub struct FieldRef {
    /// The class that declares it.
    pub on: ClassId,
    /// Its node.
    pub node: NodeId,
}

/// Whether a field is static.
#[tactic(auto, using(crate::proofs::FieldLemmas::static_is), unfolding(crate::specs::Fields::found_field))]
pub fn is_static_field(program: &Program, field: &FieldRef) -> bool
    ensures { result ≡ (found_field program.now.nodes field.now).field.modifiers.is_static }
{
    node_views::is_static_field(program, field.node)
}

/// The type of a field, as it is written.
#[tactic(auto, unfolding(crate::specs::Fields::found_field))]
pub fn field_type(program: &Program, field: &FieldRef) -> WrittenType
    ensures { result ≡ (found_field program.now.nodes field.now).field.declared_type }
{
    match node_views::field_type(program, field.node) {
        Some(declared_type) => declared_type,
        None => WrittenType::Void,
    }
}

/// A field with all that is declared of it.
#[tactic(auto, unfolding(crate::specs::Fields::found_field))]
pub fn found_field(program: &Program, field: &FieldRef) -> FoundField
    ensures { result ≡ found_field program.now.nodes field.now }
{
    let declared = match field_at(program, field.node) {
        Some(declared) => declared,
        None => Declared {
            node: field.node,
            ..nothing()
        },
    };
    FoundField {
        on: field.on,
        field: declared,
    }
}
