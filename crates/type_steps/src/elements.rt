//! Types without brackets, and their nodes.

ghost use Rattle.std.specs.Prelude.{◌≡◌, IfOk};
ghost use Rattle.parser_machine.specs.Declarations.{element_node as node_of_element};

use parser_machine::ElementType;
use scj_base::{Memory, Position};
use scj_tree::Node;

/// The type once more.
pub fn same_element(element: &ElementType) -> Result<ElementType, Memory>
    ensures { IfOk result (λ same. same ≡ element.now) }
{
    match element {
        ElementType::Int => Ok(ElementType::Int),
        ElementType::Boolean => Ok(ElementType::Boolean),
        ElementType::Reference { name, argument } => Ok(ElementType::Reference {
            name: name.share()?,
            argument: *argument,
        }),
    }
}

/// The node of a type, an array's where `is_array` holds.
#[tactic(auto, unfolding(parser_machine::specs::Declarations::element_node))]
pub fn element_node(
    position: Position,
    element: &ElementType,
    is_array: bool,
) -> Result<Node, Memory>
    ensures { IfOk result (λ node. node ≡ node_of_element position element.now is_array) }
{
    match element {
        ElementType::Int => Ok(Node::IntType { position, is_array }),
        ElementType::Boolean => Ok(Node::BooleanType { position, is_array }),
        ElementType::Reference { name, argument } => Ok(Node::ClassType {
            position,
            name: name.share()?,
            argument: *argument,
            is_array,
        }),
    }
}
