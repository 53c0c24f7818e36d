//! What names, accesses and calls mean, and which types fit.

ghost use Rattle.std.specs.Prelude.{◌≡◌, ◌&&◌, None, Some, if◌then◌else◌, option_and_then, option_map};
ghost use Rattle.scj_rules.specs.Definitions.{read};
ghost use Rattle.scj_rules.specs.Contexts.{declarations_of};
ghost use Rattle.scj_rules.specs.Types.{type_written, array_of, are_same, assigns, binary_type, are_comparable, meaning, receiver, call_receiver, accessed_field, called_method};
ghost use Rattle.scj_rules.specs.TypeRules.{written_type};
ghost use Rattle.method_rows.specs.Methods.{found_method};
ghost use Rattle.class_rows.specs.Fields.{found_field};
ghost use Rattle.program_facts.specs.Meanings.{meant, simply_named, IsMember};
ghost use Rattle.program_facts.specs.Reported.{declared, types};

use class_rows::FieldRef;
use method_rows::MethodRef;
use program_facts::{At, NameMeaning, NodeMeaning, ProgramFacts};
use scj_base::vocabulary::{
    AND_AND, EQUAL, GREATER, GREATER_EQUAL, LESS, LESS_EQUAL, NOT_EQUAL, OR_OR,
};
use scj_base::{Name, NodeId};
use scj_rules::{Receiver, Ty, WrittenType};
use scj_tree::Node;
use type_words::{are_same, array_of, class_of_receiver, is_reference};

/// The type that is written; `long` is none of the types of an expression.
#[tactic(auto, unfolding(scj_rules::specs::Types::type_written))]
pub fn type_written(facts: &ProgramFacts<'_>, t: &WrittenType) -> Option<Ty>
    ensures { result ≡ type_written (declarations_of facts.now).names t.now }
{
    match t {
        WrittenType::Int => Some(Ty::Int),
        WrittenType::Boolean => Some(Ty::Bool),
        WrittenType::Void => Some(Ty::Void),
        WrittenType::Long => None,
        WrittenType::Text => Some(Ty::Label),
        WrittenType::IntArray => Some(Ty::IntArray),
        WrittenType::BooleanArray => Some(Ty::BoolArray),
        WrittenType::Class(name) => Some(Ty::Class(facts.class_of(name)?)),
        WrittenType::ClassArray(name) => Some(Ty::ClassArray(facts.class_of(name)?)),
    }
}

/// The type that a node writes, of which no name is copied.
#[tactic(auto, unfolding(scj_rules::specs::Contexts::declarations_of, scj_rules::specs::Types::type_written, scj_rules::specs::Views::type_of_node))]
pub fn written_type(facts: &ProgramFacts<'_>, node: NodeId) -> Option<Ty>
    ensures { result ≡ written_type (declarations_of facts.now) node }
{
    match facts.program().get(node) {
        Some(Node::IntType { is_array: true, .. }) => Some(Ty::IntArray),
        Some(Node::IntType { .. }) => Some(Ty::Int),
        Some(Node::BooleanType { is_array: true, .. }) => Some(Ty::BoolArray),
        Some(Node::BooleanType { .. }) => Some(Ty::Bool),
        Some(Node::ClassType { name, is_array, .. }) => match *is_array {
            true => Some(Ty::ClassArray(facts.class_of(name.get())?)),
            false => Some(Ty::Class(facts.class_of(name.get())?)),
        },
        Some(Node::LongType { .. }) => None,
        _ => Some(Ty::Void),
    }
}

/// The type of a new array of what is written.
pub fn array_written(facts: &ProgramFacts<'_>, element: NodeId) -> Option<Ty>
    ensures { result ≡ option_and_then array_of (written_type (declarations_of facts.now) element) }
{
    let t = written_type(facts, element)?;
    array_of(&t)
}

/// Whether a value of the first type may be assigned to a variable of the second (JLS 5.2).
#[tactic(auto, unfolding(scj_rules::specs::Types::assigns, scj_rules::specs::Types::are_same))]
pub fn assigns(facts: &ProgramFacts<'_>, s: &Ty, t: &Ty) -> bool
    ensures { result ≡ assigns (declarations_of facts.now).classes s.now t.now }
{
    match (s, t) {
        (Ty::NullTy, _) => is_reference(t),
        (Ty::Class(a), Ty::Class(b)) => facts.classes().is_sub(*a, *b),
        _ => are_same(s, t),
    }
}

/// Whether both types are this one.
fn are_both(a: &Ty, b: &Ty, t: &Ty) -> bool
    ensures { result ≡ (are_same a.now t.now && are_same b.now t.now) }
{
    are_same(a, t) && are_same(b, t)
}

/// Whether both are ints, booleans, or references of which one may be assigned to the other (JLS 15.21).
fn are_comparable(facts: &ProgramFacts<'_>, a: &Ty, b: &Ty) -> bool
    ensures { result ≡ are_comparable (declarations_of facts.now).classes a.now b.now }
{
    are_both(a, b, &Ty::Int)
        || are_both(a, b, &Ty::Bool)
        || (is_reference(a) && is_reference(b) && (assigns(facts, a, b) || assigns(facts, b, a)))
}

/// The value, if a test holds.
pub fn when<T: Copy>(test: bool, value: T) -> Option<T>
    ensures { result ≡ (if test then Some value else None) }
{
    if test { Some(value) } else { None }
}

/// The type of a binary operator's value, if the operands' types fit (JLS 15.17 to 15.24).
#[tactic(auto, unfolding(scj_rules::specs::Types::binary_type))]
pub fn binary_type(facts: &ProgramFacts<'_>, operator: u8, a: &Ty, b: &Ty) -> Option<Ty>
    ensures { result ≡ binary_type (declarations_of facts.now).classes operator a.now b.now }
{
    match operator {
        AND_AND | OR_OR => when(are_both(a, b, &Ty::Bool), Ty::Bool),
        LESS | GREATER | LESS_EQUAL | GREATER_EQUAL => { when(are_both(a, b, &Ty::Int), Ty::Bool) }
        EQUAL | NOT_EQUAL => when(are_comparable(facts, a, b), Ty::Bool),
        _ => when(are_both(a, b, &Ty::Int), Ty::Int),
    }
}

/// What a name stands for at a node (JLS 6.5).
#[tactic(auto, using(program_facts::proofs::VariableLemmas::first), unfolding(program_facts::specs::Meanings::meant, scj_rules::specs::Types::meaning, scj_rules::specs::Types::class_meaning))]
pub fn meaning(facts: &ProgramFacts<'_>, id: NodeId, name: &Name) -> NameMeaning
    ensures { meant facts.now.nodes result ≡ meaning (declarations_of facts.now) id name.now }
{
    let context = facts.context(id);
    if let Some(variable) = facts.variable_from(context.last, name) {
        return NameMeaning::Variable(variable);
    }
    if let Some(class) = context.class {
        if let Some(field) = facts.classes().field_named(class, name) {
            return NameMeaning::Field(field);
        }
    }
    if !context.before_dot {
        return NameMeaning::Nothing;
    }
    match facts.class_of(name) {
        Some(class) => NameMeaning::Class(class),
        None => NameMeaning::Nothing,
    }
}

/// What a node that is this name stands for. Where its row tells it, nothing is looked up.
#[tactic(auto, unfolding(program_facts::specs::Meanings::IsMeaningAt))]
pub fn meaning_there(facts: &ProgramFacts<'_>, id: NodeId, name: &Name) -> NameMeaning
    requires { read facts.now.nodes simply_named id ≡ Some name.now }
    ensures { meant facts.now.nodes result ≡ meaning (declarations_of facts.now) id name.now }
{
    match facts.meaning_reported(id) {
        NodeMeaning::Name(reported) => reported,
        _ => meaning(facts, id, name),
    }
}

/// What stands before a dot.
#[tactic(auto, unfolding(program_facts::specs::Meanings::meant, program_facts::specs::Meanings::simply_named, scj_rules::specs::Types::receiver, scj_rules::specs::Types::class_at_name, scj_rules::specs::Types::class_in, scj_rules::specs::Contexts::declarations_of))]
pub fn receiver(at: &At<'_>, object: NodeId) -> Option<Receiver>
    ensures { result ≡ receiver (declared at.now) (types at.now) object }
{
    if let Some(Node::SimpleName { name, .. }) = at.facts.program().get(object) {
        if let NameMeaning::Class(class) = meaning_there(at.facts, object, name.get()) {
            return Some(Receiver::Class(class));
        }
    }
    Some(Receiver::Value(at.type_of(object)?))
}

/// What a call is asked of: where no object is written, the object or the class in which it stands.
#[tactic(auto, unfolding(scj_rules::specs::Types::call_receiver))]
pub fn call_receiver(at: &At<'_>, object: &Option<NodeId>) -> Option<Receiver>
    ensures { result ≡ call_receiver (declared at.now) (types at.now) at.now.id object.now }
{
    match object {
        Some(object) => receiver(at, *object),
        None => Some(Receiver::Own(at.facts.context(at.id).class?)),
    }
}

/// The row of the node, if it is an access or a call of this name.
#[tactic(auto, unfolding(program_facts::specs::Meanings::IsMeaningAt, program_facts::specs::Meanings::IsMember, program_facts::specs::Meanings::member_named))]
fn row_of(at: &At<'_>, name: &Name) -> NodeMeaning
    ensures { IsMember at.now.facts.now name.now result }
{
    match at.facts.program().get(at.id) {
        Some(Node::FieldAccess { name: written, .. } | Node::Call { name: written, .. }) => {
            if *written.get() == *name {
                at.facts.meaning_reported(at.id)
            } else {
                NodeMeaning::Nothing
            }
        }
        _ => NodeMeaning::Nothing,
    }
}

/// The field of a name that a receiver has, at the node of an access, whose row may tell it.
#[tactic(auto, unfolding(program_facts::specs::Meanings::IsMember))]
pub fn field_accessed(at: &At<'_>, receiver: &Receiver, name: &Name) -> Option<FieldRef>
    ensures { option_map (found_field at.now.facts.now.nodes) result ≡ accessed_field (declared at.now) receiver.now
        name.now }
{
    let class = class_of_receiver(receiver)?;
    if let NodeMeaning::Field(asked, field) = row_of(at, name) {
        if asked == class {
            return Some(field);
        }
    }
    at.facts.classes().field_named(class, name)
}

/// The method of a name that a receiver has, at the node of a call, whose row may tell it.
#[tactic(auto, unfolding(program_facts::specs::Meanings::IsMember))]
pub fn method_called(at: &At<'_>, receiver: &Receiver, name: &Name) -> Option<MethodRef>
    ensures { option_map (found_method at.now.facts.now.nodes) result ≡ called_method (declared at.now) receiver.now
        name.now }
{
    let class = class_of_receiver(receiver)?;
    if let NodeMeaning::Method(asked, method) = row_of(at, name) {
        if asked == class {
            return Some(method);
        }
    }
    at.facts.classes().method_named(class, name)
}
