//! The bytes of the areas that classes declare by a size method.

ghost use Rattle.std.specs.Prelude.{◌≡◌};
ghost use Rattle.scj_rules.specs.Definitions.{read};
ghost use Rattle.scj_rules.specs.Contexts.{declarations_of};
ghost use Rattle.scj_rules.specs.Bodies.{number_literal, number_returned, size_constant, declared_size, size_method, size_of};

use class_rows::ClassTable;
use scj_base::ids::MISSION;
use scj_base::{ClassId, Name, NodeId};
use scj_tree::{Node, Program};

/// The number that a node writes.
#[tactic(auto, unfolding(scj_rules::specs::Bodies::number_literal))]
fn number_literal(program: &Program, id: NodeId) -> Option<u32>
    ensures { result ≡ read program.now.nodes number_literal id }
{
    match program.get(id)? {
        Node::Number {
            value,
            is_negative,
            ..
        } => {
            if *is_negative {
                return None;
            }
            Some(*value)
        }
        _ => None,
    }
}

/// The number that a statement returns.
#[tactic(auto, unfolding(scj_rules::specs::Bodies::number_returned))]
fn number_returned(program: &Program, id: NodeId) -> Option<u32>
    ensures { result ≡ read program.now.nodes (number_returned program.now.nodes) id }
{
    match program.get(id)? {
        Node::Return {
            value: Some(value),
            ..
        } => number_literal(program, *value),
        _ => None,
    }
}

/// The number that a body returns, where that is all it does.
#[tactic(auto, unfolding(scj_rules::specs::Bodies::size_constant))]
fn size_constant(program: &Program, id: NodeId) -> Option<u32>
    ensures { result ≡ read program.now.nodes (size_constant program.now.nodes) id }
{
    match program.get(id)? {
        Node::Block { statements, .. } => match statements.items() {
            [statement] => number_returned(program, *statement),
            _ => None,
        },
        _ => None,
    }
}

/// The bytes that a class declares by the method of this name.
#[tactic(auto, using(crate::proofs::BodyLemmas::nodes_are), unfolding(scj_rules::specs::Bodies::declared_size))]
fn declared_size(classes: &ClassTable, class: ClassId, name: &Name) -> Option<u32>
    ensures { result ≡ declared_size (declarations_of classes.now) class name.now }
{
    let body = match classes.method_named(class, name) {
        Some(method) => method_rows::body(classes.program(), &method),
        None => None,
    };
    size_constant(classes.program(), body?)
}

/// The name of the method by which a class declares the bytes of its area.
fn size_method(classes: &ClassTable, class: ClassId) -> Name
    ensures { result ≡ size_method (declarations_of classes.now) class }
{
    if classes.is_under(class, MISSION) {
        return Name::new(b"missionMemorySize");
    }
    Name::new(b"immortalMemorySize")
}

/// The bytes of the area that a class declares.
#[tactic(auto, unfolding(scj_rules::specs::Bodies::size_of))]
pub fn size_of(classes: &ClassTable, class: ClassId) -> Option<u32>
    ensures { result ≡ size_of (declarations_of classes.now) class }
{
    declared_size(classes, class, &size_method(classes, class))
}
