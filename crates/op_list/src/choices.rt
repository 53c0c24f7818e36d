//! Between what operations choose.

ghost use Rattle.std.specs.Prelude.{◌≡◌};
ghost use Rattle.op_list.specs.Choices.{choice_of, choice_at, and_choice, or_choice, if_choice, loop_choice};

use crate::code::Code;
use scj_base::NodeId;
use scj_model::Op;
use scj_tree::Node;

/// Two parts of which a condition chooses one. Each may be missing.
#[derive(Clone, Copy, Debug)]
pub struct TwoParts {
    pub on_true: Option<NodeId>,
    pub on_false: Option<NodeId>,
}

/// One turn of a loop: the body, the step and the condition.
#[derive(Clone, Copy, Debug)]
pub struct TurnParts {
    pub body: NodeId,
    pub step: Option<NodeId>,
    pub test: NodeId,
}

/// What an operation puts in front of the rest.
#[derive(Clone, Copy, Debug)]
pub enum Choice {
    /// Nothing.
    Plain,
    /// One of two parts.
    Either(TwoParts),
    /// A turn and the operation again, if its condition is true.
    Turn(TurnParts),
}

/// The right operand of `&&` counts where the left one is true.
#[tactic(auto, unfolding(crate::specs::Choices::and_choice))]
fn and_choice(node: &Node) -> Choice
    ensures { result ≡ and_choice node.now }
{
    match node {
        Node::Binary { right, .. } => Choice::Either(TwoParts {
            on_true: Some(*right),
            on_false: None,
        }),
        _ => Choice::Plain,
    }
}

/// The right operand of `||` counts where the left one is false.
#[tactic(auto, unfolding(crate::specs::Choices::or_choice))]
fn or_choice(node: &Node) -> Choice
    ensures { result ≡ or_choice node.now }
{
    match node {
        Node::Binary { right, .. } => Choice::Either(TwoParts {
            on_true: None,
            on_false: Some(*right),
        }),
        _ => Choice::Plain,
    }
}

/// The parts of an `if`.
#[tactic(auto, unfolding(crate::specs::Choices::if_choice))]
fn if_choice(node: &Node) -> Choice
    ensures { result ≡ if_choice node.now }
{
    match node {
        Node::If {
            then_part,
            else_part,
            ..
        } => Choice::Either(TwoParts {
            on_true: Some(*then_part),
            on_false: *else_part,
        }),
        _ => Choice::Plain,
    }
}

/// The turn of a loop.
#[tactic(auto, unfolding(crate::specs::Choices::loop_choice))]
fn loop_choice(node: &Node) -> Choice
    ensures { result ≡ loop_choice node.now }
{
    match node {
        Node::While {
            condition,
            body,
            ..
        } => Choice::Turn(TurnParts {
            body: *body,
            step: None,
            test: *condition,
        }),
        Node::For {
            condition,
            step,
            body,
            ..
        } => Choice::Turn(TurnParts {
            body: *body,
            step: Some(*step),
            test: *condition,
        }),
        _ => Choice::Plain,
    }
}

/// Between what an operation chooses.
#[tactic(auto, unfolding(crate::specs::Choices::choice_of, crate::specs::Choices::choice_at))]
pub fn choice_of(code: &Code<'_>, op: &Op) -> Choice
    ensures { result ≡ choice_of code.now.nodes op.now }
{
    match op {
        Op::And(id) => match code.node(*id) {
            None => Choice::Plain,
            Some(node) => and_choice(node),
        },
        Op::Or(id) => match code.node(*id) {
            None => Choice::Plain,
            Some(node) => or_choice(node),
        },
        Op::If(id) => match code.node(*id) {
            None => Choice::Plain,
            Some(node) => if_choice(node),
        },
        Op::Loop(id) => match code.node(*id) {
            None => Choice::Plain,
            Some(node) => loop_choice(node),
        },
        _ => Choice::Plain,
    }
}
