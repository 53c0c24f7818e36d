//! The parameters of methods and constructors.

ghost use Rattle.std.specs.Prelude.{◌≡◌, length, filter_map, slice_get, option_map, option_and_then};
ghost use Rattle.scj_rules.specs.Views.{variable_at, parameters_at};
ghost use Rattle.scj_rules.specs.declared.views.Declared.{Declared as Declaration};

use crate::declarations::variable_at;
use crate::kinds::is_variable;
use crate::parts::variable_type;
use scj_base::NodeId;
use scj_rules::{Declared, WrittenType};
use scj_tree::{Node, Program};

/// The nodes of a list of parameters. [`variable_at`] tells what each declares; one that declares nothing is none.
#[tactic(auto, unfolding(scj_rules::specs::Views::parameters_of))]
pub fn parameter_nodes(program: &Program, parameters: Option<NodeId>) -> &[NodeId]
    ensures { filter_map (variable_at program.now.nodes) result.now ≡ parameters_at program.now.nodes parameters }
{
    let node = match parameters {
        Some(parameters) => program.get(parameters),
        None => None,
    };
    match node {
        Some(Node::Parameters { list, .. }) => list.items(),
        _ => &[],
    }
}

/// How many parameters there are.
pub fn parameter_count(program: &Program, parameters: Option<NodeId>) -> usize
    ensures { result ≡ length (parameters_at program.now.nodes parameters) }
{
    let mut count = 0;
    let mut others = parameter_nodes(program, parameters);
    while let [id, rest @ ..] = others {
        if is_variable(program, *id) {
            count += 1;
        }
        others = rest;
    }
    count
}

/// The node of the parameter of a number.
fn parameter_node(program: &Program, parameters: Option<NodeId>, i: usize) -> Option<NodeId>
    ensures { option_and_then (variable_at program.now.nodes) result ≡ slice_get
        (parameters_at program.now.nodes parameters) i }
{
    let mut left = i;
    let mut others = parameter_nodes(program, parameters);
    while let [id, rest @ ..] = others {
        if is_variable(program, *id) {
            if left == 0 {
                return Some(*id);
            }
            left -= 1;
        }
        others = rest;
    }
    None
}

/// The parameter of a number.
pub fn parameter(program: &Program, parameters: Option<NodeId>, i: usize) -> Option<Declared>
    ensures { result ≡ slice_get (parameters_at program.now.nodes parameters) i }
{
    match parameter_node(program, parameters, i) {
        Some(id) => variable_at(program, id),
        None => None,
    }
}

/// The type of the parameter of a number.
pub fn parameter_type(
    program: &Program,
    parameters: Option<NodeId>,
    i: usize,
) -> Option<WrittenType>
    ensures { result ≡ option_map (λ (d : Declaration). d.declared_type)
        (slice_get (parameters_at program.now.nodes parameters) i) }
{
    match parameter_node(program, parameters, i) {
        Some(id) => variable_type(program, id),
        None => None,
    }
}
