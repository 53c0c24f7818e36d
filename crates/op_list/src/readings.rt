//! What the code tells of a node.

ghost use Rattle.std.specs.Prelude.{◌≡◌, option_and_then};
ghost use Rattle.scj_rules.specs.Layout.{literal_written};
ghost use Rattle.scj_model.specs.Code.{binding, code_of, part};
ghost use Rattle.scj_model.specs.Memory.{literal_value};
ghost use Rattle.scj_model.specs.Operations.{argument_count, assigned, assigned_node, bound_class, bound_field, bound_local, bound_method, bound_static, bound_static_method, first_argument, operator_of};

use crate::code::Code;
use scj_base::{ClassId, FieldId, MethodId, NodeId, Value};
use scj_rules::Binding;
use scj_tree::Node;

// ---- what a binding says

/// The local that a name stands for.
#[tactic(auto, unfolding(scj_model::specs::Operations::bound_local))]
pub fn bound_local(binding: Binding) -> Option<u8>
    ensures { result ≡ bound_local binding }
{
    match binding {
        Binding::Local(k) => Some(k),
        _ => None,
    }
}

/// The instance field that a name or an access stands for.
#[tactic(auto, unfolding(scj_model::specs::Operations::bound_field))]
pub fn bound_field(binding: Binding) -> Option<FieldId>
    ensures { result ≡ bound_field binding }
{
    match binding {
        Binding::Field(field) => Some(field),
        _ => None,
    }
}

/// The static field that a name or an access stands for.
#[tactic(auto, unfolding(scj_model::specs::Operations::bound_static))]
pub fn bound_static(binding: Binding) -> Option<FieldId>
    ensures { result ≡ bound_static binding }
{
    match binding {
        Binding::Static(field) => Some(field),
        _ => None,
    }
}

/// The class that a node names: of a cast, of a `new`, of a super part.
#[tactic(auto, unfolding(scj_model::specs::Operations::bound_class))]
pub fn bound_class(binding: Binding) -> Option<ClassId>
    ensures { result ≡ bound_class binding }
{
    match binding {
        Binding::Class(class) => Some(class),
        _ => None,
    }
}

/// The instance method that a call stands for.
#[tactic(auto, unfolding(scj_model::specs::Operations::bound_method))]
pub fn bound_method(binding: Binding) -> Option<MethodId>
    ensures { result ≡ bound_method binding }
{
    match binding {
        Binding::Method(target) => Some(target.id),
        _ => None,
    }
}

/// The static method that a call stands for, behind the class of which it is asked.
#[tactic(auto, unfolding(scj_model::specs::Operations::bound_static_method))]
pub fn bound_static_method(binding: Binding) -> Option<(ClassId, MethodId)>
    ensures { result ≡ bound_static_method binding }
{
    match binding {
        Binding::StaticMethod(target) => Some((target.on, target.id)),
        _ => None,
    }
}

// ---- what a node says

/// The operator of a node that has one.
#[tactic(auto, unfolding(scj_model::specs::Operations::operator_of))]
fn operator_of(node: &Node) -> Option<u8>
    ensures { result ≡ operator_of node.now }
{
    match node {
        Node::Binary { operator, .. } => Some(*operator),
        Node::Unary { operator, .. } => Some(*operator),
        _ => None,
    }
}

/// The node that tells what the node of this number assigns: the target of an assignment, and the declaration of a
/// local with a value.
#[tactic(auto, unfolding(scj_model::specs::Operations::assigned_node))]
fn assigned_node(id: NodeId, node: &Node) -> Option<NodeId>
    ensures { result ≡ assigned_node id node.now }
{
    match node {
        Node::Assign { target, .. } => Some(*target),
        Node::LocalWithValue { .. } => Some(id),
        _ => None,
    }
}

/// How many arguments a call, a `new` or a super call has.
#[tactic(auto, unfolding(scj_model::specs::Operations::argument_count))]
fn argument_count(node: &Node) -> Option<usize>
    ensures { result ≡ argument_count node.now }
{
    match node {
        Node::Call { arguments, .. } => Some(arguments.items().len()),
        Node::New { arguments, .. } => Some(arguments.items().len()),
        Node::SuperCall { arguments, .. } => Some(arguments.items().len()),
        _ => None,
    }
}

/// The first argument of a call that has one.
#[tactic(auto, unfolding(scj_model::specs::Operations::first_argument))]
fn first_argument(node: &Node) -> Option<NodeId>
    ensures { result ≡ first_argument node.now }
{
    match node {
        Node::Call { arguments, .. } => match arguments.items() {
            [first, ..] => Some(*first),
            [] => None,
        },
        _ => None,
    }
}

// ---- the same of the node of a number

/// The operator of a node that has one.
#[tactic(auto, using(crate::proofs::CodeLemmas::nodes_are))]
pub fn operator_at(code: &Code<'_>, id: NodeId) -> Option<u8>
    ensures { result ≡ part (code_of code.now) operator_of id }
{
    operator_of(code.node(id)?)
}

/// How many arguments a call, a `new` or a super call has.
#[tactic(auto, using(crate::proofs::CodeLemmas::nodes_are))]
pub fn argument_count_at(code: &Code<'_>, id: NodeId) -> Option<usize>
    ensures { result ≡ part (code_of code.now) argument_count id }
{
    argument_count(code.node(id)?)
}

/// The first argument of a call that has one.
#[tactic(auto, using(crate::proofs::CodeLemmas::nodes_are))]
pub fn first_argument_at(code: &Code<'_>, id: NodeId) -> Option<NodeId>
    ensures { result ≡ part (code_of code.now) first_argument id }
{
    first_argument(code.node(id)?)
}

/// What stands for that which a node assigns.
#[tactic(auto, using(crate::proofs::CodeLemmas::nodes_are))]
pub fn assigned(code: &Code<'_>, id: NodeId) -> Option<Binding>
    ensures { result ≡ assigned (code_of code.now) id }
{
    let node = assigned_node(id, code.node(id)?)?;
    Some(code.binding(node))
}

/// The value of the literal at a node, if it is one.
#[tactic(auto, using(crate::proofs::CodeLemmas::nodes_are))]
pub fn literal_at(code: &Code<'_>, id: NodeId) -> Option<Value>
    ensures { result ≡ part (code_of code.now) literal_value id }
{
    value_operators::literal(code.checked(), id)
}

/// The value of the literal with which the field at a node is declared.
#[tactic(auto, using(crate::proofs::CodeLemmas::program_is))]
pub fn value_of_field(code: &Code<'_>, id: NodeId) -> Option<Value>
    ensures { result ≡ option_and_then (part (code_of code.now) literal_value)
        (part (code_of code.now) literal_written id) }
{
    literal_at(code, code.layout().literal_of(id)?)
}
