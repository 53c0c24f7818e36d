//! Stores that a guard allows.

ghost use Rattle.std.specs.Prelude.{◌≡◌, option_map};
ghost use Rattle.scj_rules.specs.Definitions.{read};
ghost use Rattle.scj_rules.specs.Guards.{is_in_this, stored_field, is_guarded_store};
ghost use Rattle.class_rows.specs.Fields.{found_field};
ghost use Rattle.program_facts.specs.Reported.{declared, types};
ghost use Rattle.runs_in_check.specs.Guards.{accessed_of, stored_in, AreGuards};

use crate::guards::{Guards, is_guarded};
use crate::subjects::subject_at;
use class_rows::FieldRef;
use class_rows::fields::found_field;
use program_facts::{At, NameMeaning};
use scj_base::{Name, NodeId};
use scj_rules::{Subject, Ty};
use scj_tree::{Node, Program};
use type_rules::names;

/// The field that a target names.
#[derive(Clone, Copy)]
pub struct StoredField {
    /// The subject that its object is, if it is one.
    pub object: Option<Subject>,
    pub field: FieldRef,
}

/// The field that an access names, if it names one.
fn accessed(at: &At<'_>, name: &Name, object: NodeId) -> Option<StoredField>
    ensures { option_map (stored_in at.now.facts.now.nodes) result
        ≡ accessed_of (declared at.now) (types at.now) object name.now }
{
    // The proof wants the type named that a receiver may hold.
    let _types: &[Option<Ty>] = at.types;
    let receiver = names::receiver(at, object)?;
    let field = names::field_accessed(at, &receiver, name)?;
    Some(StoredField {
        object: subject_at(at.facts, object),
        field,
    })
}

/// The field that a target names, if it names one.
#[tactic(auto, unfolding(scj_rules::specs::Guards::stored_field, scj_rules::specs::Guards::field_of_this, program_facts::specs::Meanings::meant, scj_rules::specs::Contexts::declarations_of))]
fn stored_field(at: &At<'_>, target: NodeId) -> Option<StoredField>
    ensures { let p = declared at.now in
        option_map (stored_in at.now.facts.now.nodes) result
        ≡ read p.nodes (stored_field p (types at.now) target) target }
{
    let facts = at.facts;
    match facts.program().get(target)? {
        Node::SimpleName { name, .. } => match names::meaning(facts, target, name.get()) {
            NameMeaning::Field(field) => Some(StoredField {
                object: Some(Subject::This),
                field,
            }),
            _ => None,
        },
        Node::FieldAccess { name, object, .. } => accessed(at, name.get(), *object),
        _ => None,
    }
}

/// Whether the scope that is written of an instance field, or else its default, is `THIS`.
fn is_in_this(program: &Program, field: &FieldRef) -> bool
    ensures { result ≡ is_in_this (found_field program.now.nodes field.now).field }
{
    let found = found_field(program, field);
    let modifiers = found.field.modifiers;
    if modifiers.is_static {
        return false;
    }
    match &modifiers.scope {
        Some(written) => written.name.bytes() == b"THIS".as_slice(),
        None => true,
    }
}

/// Whether the store of a value in a target, at a node, is one of a subject in a field of the other under their guard.
#[tactic(auto, unfolding(scj_rules::specs::Guards::is_guarded_store, scj_rules::specs::Contexts::declarations_of))]
pub fn is_guarded_store(at: &At<'_>, guards: &Guards, target: NodeId, value: NodeId) -> bool
    requires { AreGuards (declared at.now) (types at.now) guards.now }
    ensures { result ≡ is_guarded_store (declared at.now) (types at.now) at.now.id target value }
{
    let Some(stored) = stored_field(at, target) else {
        return false;
    };
    if !is_in_this(at.facts.program(), &stored.field) {
        return false;
    }
    match (&stored.object, &subject_at(at.facts, value)) {
        (Some(x), Some(y)) => is_guarded(guards, at, x, y),
        _ => false,
    }
}
