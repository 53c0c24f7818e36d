//! The bodies that calls run.

ghost use Rattle.std.specs.Prelude.{◌≡◌, slice_get};
ghost use Rattle.scj_rules.specs.Contexts.{declarations_of};
ghost use Rattle.scj_rules.specs.Bodies.{body_of_method, body_named, body_of, method_node, method_name};
ghost use Rattle.method_rows.specs.Methods.{found_method};

use class_rows::ClassTable;
use method_rows::MethodRef;
use node_views::callable_name;
use scj_base::ids::MISSION_CLEAN_UP;
use scj_base::{ClassId, MethodId, Name, NodeId};
use scj_builtins::{FRAMEWORK_METHOD_COUNT, framework_method};
use scj_rules::Body;
use scj_tree::Program;

/// The body of a method that is found.
#[tactic(auto, unfolding(scj_rules::specs::Bodies::body_of_method))]
fn body_of_method(program: &Program, method: &MethodRef) -> Option<Body>
    ensures { result ≡ body_of_method (found_method program.now.nodes method.now) }
{
    match method_rows::builtin(method) {
        None => Some(Body::Written(method_rows::node(program, method))),
        Some(number) => {
            if number == MISSION_CLEAN_UP {
                return Some(Body::Empty);
            }
            None
        }
    }
}

/// The body that a call of this name runs on an object of a class.
#[tactic(auto, unfolding(scj_rules::specs::Bodies::body_named))]
pub fn body_named(classes: &ClassTable, class: ClassId, name: &Name) -> Option<Body>
    ensures { result ≡ body_named (declarations_of classes.now) class name.now }
{
    match classes.method_named(class, name) {
        Some(method) => body_of_method(classes.program(), &method),
        None => None,
    }
}

/// The node at a place of a list.
fn node_at(nodes: &[NodeId], index: u32) -> Option<NodeId>
    ensures { result ≡ slice_get nodes.now index }
{
    nodes.get(index as usize).copied()
}

/// The node of a declared method or constructor.
#[tactic(auto, using(crate::proofs::BodyLemmas::no_framework_node, crate::proofs::BodyLemmas::declared_node))]
fn method_node(classes: &ClassTable, method: MethodId) -> Option<NodeId>
    ensures { result ≡ method_node (declarations_of classes.now) method }
{
    let number = method.number();
    if number < FRAMEWORK_METHOD_COUNT {
        return None;
    }
    node_at(classes.method_nodes(), number - FRAMEWORK_METHOD_COUNT)
}

/// The name of a method or constructor.
#[tactic(auto, using(crate::proofs::BodyLemmas::nodes_are), unfolding(scj_rules::specs::Bodies::method_name))]
fn method_name(classes: &ClassTable, method: MethodId) -> Option<Name>
    ensures { result ≡ method_name (declarations_of classes.now) method }
{
    match method_node(classes, method) {
        Some(node) => Some(callable_name(classes.program(), node)?.name),
        None => Some(framework_method(method)?.name),
    }
}

/// The body that a call of a method runs on an object of a class.
#[tactic(auto, unfolding(scj_rules::specs::Bodies::body_of, scj_rules::specs::Bodies::invoked_method, scj_rules::specs::Bodies::body_named))]
pub fn body_of(classes: &ClassTable, class: ClassId, method: MethodId) -> Option<Body>
    ensures { result ≡ body_of (declarations_of classes.now) class method }
{
    let name = method_name(classes, method)?;
    body_named(classes, class, &name)
}
