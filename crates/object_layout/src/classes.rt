//! What is written of single classes.

ghost use Rattle.std.specs.Prelude.{◌≡◌, length, option_and_then};
ghost use Rattle.scj_tree.specs.Forest.{IsForest};
ghost use Rattle.scj_rules.specs.Views.{class_at};
ghost use Rattle.scj_rules.specs.Contexts.{declarations_of};
ghost use Rattle.scj_rules.specs.ScopeRules.{user_class_in};
ghost use Rattle.scj_rules.specs.Bodies.{class_node, class_position, constructor_body};

use class_rows::ClassTable;
use scj_base::ids::OBJECT;
use scj_base::{ClassId, NodeId, Position};
use scj_rules::Body;

/// The number of the nodes of the program.
pub fn node_count(classes: &ClassTable) -> usize
    ensures value { result ≡ length classes.now.nodes }
    ensures whole { IsForest classes.now }
{
    classes.program().len()
}

/// The node of a user class.
#[tactic(auto, using(class_rows::proofs::UserLemmas::written_stays))]
pub fn class_node(classes: &ClassTable, class: ClassId) -> Option<NodeId>
    ensures node { result ≡ class_node (declarations_of classes.now) class }
    ensures class { option_and_then (class_at classes.now.nodes) result ≡ user_class_in
        (declarations_of classes.now).classes class }
{
    classes.class_node(class)
}

/// Where a user class is named, and the first place of all for one of the framework.
#[tactic(auto, unfolding(scj_rules::specs::Bodies::class_position))]
pub fn class_position(classes: &ClassTable, class: ClassId) -> Position
    ensures { result ≡ class_position (declarations_of classes.now) class }
{
    let position = match class_node(classes, class) {
        Some(node) => node_views::class_position(classes.program(), node),
        None => None,
    };
    match position {
        Some(position) => position,
        None => Position {
            file: 0,
            line: 0,
            col: 0,
        },
    }
}

/// What `new` runs for a class.
#[tactic(auto, unfolding(scj_rules::specs::Bodies::constructor_body))]
pub fn constructor_body(classes: &ClassTable, class: ClassId) -> Option<Body>
    ensures { result ≡ constructor_body (declarations_of classes.now) class }
{
    if class == OBJECT {
        return Some(Body::Empty);
    }
    match classes.constructor_in(class) {
        Some(node) => Some(Body::Written(node)),
        None => Some(Body::Written(class_node(classes, class)?)),
    }
}
