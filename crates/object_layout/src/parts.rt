//! What single nodes tell.

ghost use Rattle.std.specs.Prelude.{◌≡◌};
ghost use Rattle.scj_rules.specs.Definitions.{read};
ghost use Rattle.scj_rules.specs.Words.{holds};
ghost use Rattle.scj_rules.specs.Views.{modifiers_at};
ghost use Rattle.scj_rules.specs.Contexts.{declarations_of, member_flags};
ghost use Rattle.scj_rules.specs.Layout.{kind_of_type, literal_written};
ghost use Rattle.scj_rules.specs.Bodies.{is_synchronized_body};

use scj_base::NodeId;
use scj_rules::{SlotKind, WrittenType};
use scj_tree::{Node, Program};

/// The node of the literal with which the field at a node is declared.
#[tactic(auto, unfolding(scj_rules::specs::Layout::literal_written))]
pub fn literal_written(program: &Program, id: NodeId) -> Option<NodeId>
    ensures { result ≡ read program.now.nodes literal_written id }
{
    match program.get(id)? {
        Node::Field { value, .. } => *value,
        _ => None,
    }
}

/// What a variable, a field or an element of a type holds.
#[tactic(auto, unfolding(scj_rules::specs::Layout::kind_of_type))]
pub fn kind_of_type(written: &WrittenType) -> SlotKind
    ensures { result ≡ kind_of_type written.now }
{
    match written {
        WrittenType::Int => SlotKind::Number,
        WrittenType::Boolean => SlotKind::Truth,
        _ => SlotKind::Reference,
    }
}

/// Whether `synchronized` stands before a declaration.
#[tactic(auto, unfolding(scj_rules::specs::Views::modifiers_of))]
fn is_synchronized_at(program: &Program, flags: Option<NodeId>) -> bool
    ensures { result ≡ (modifiers_at program.now.nodes flags).is_synchronized }
{
    let node = match flags {
        Some(flags) => program.get(flags),
        None => None,
    };
    match node {
        Some(
            Node::Flags {
                is_synchronized,
                ..
            },
        ) => *is_synchronized,
        _ => false,
    }
}

/// Whether a node is a member before which `synchronized` stands.
#[tactic(auto, unfolding(scj_rules::specs::Contexts::member_flags))]
fn is_synchronized_member(program: &Program, id: NodeId) -> bool
    ensures { result ≡ holds (read program.now.nodes member_flags id)
        (λ flags. (modifiers_at program.now.nodes flags).is_synchronized) }
{
    match program.get(id) {
        Some(Node::Field { flags, .. }) => is_synchronized_at(program, *flags),
        Some(Node::Method { flags, .. }) => is_synchronized_at(program, *flags),
        Some(Node::Constructor { flags, .. }) => is_synchronized_at(program, *flags),
        _ => false,
    }
}

/// Whether a body is a synchronized method's.
#[tactic(auto, unfolding(scj_rules::specs::Bodies::is_synchronized_body, scj_rules::specs::Contexts::declarations_of))]
pub fn is_synchronized(program: &Program, body: NodeId) -> bool
    ensures { result ≡ is_synchronized_body (declarations_of program.now) body }
{
    is_synchronized_member(program, body)
}
