//! What the kind of a node says of the contexts of its children.

ghost use Rattle.std.specs.Prelude.{◌≡◌, ℕ, List};
ghost use Rattle.scj_tree.specs.declared.nodes.Node.{Node as Tree};
ghost use Rattle.scj_tree.specs.Shape.{children};
ghost use Rattle.scj_rules.specs.Contexts.{declared_before, is_member, is_super_call, object_of};
ghost use Rattle.node_contexts.specs.Steps.{declared_by, object_in, IsFew};

use scj_base::NodeId;
use scj_tree::Node;

/// What holds at one child of a node, and not at another.
#[derive(Clone, Copy)]
pub enum Difference {
    Nothing,
    /// The variables are known that the children before it declare.
    InTurn,
    /// The parameters of this list are known, but not at the list.
    Parameters(NodeId),
    /// This child stands before a dot.
    Object(NodeId),
}

/// In what the contexts of the children of a node differ.
#[tactic(auto, unfolding(scj_tree::specs::Shape::children, scj_rules::specs::Contexts::declared_before, scj_rules::specs::Contexts::object_of))]
pub fn difference_of(node: &Node) -> Difference
    ensures known { (nodes : List Tree) (child : ℕ) → declared_before nodes node.now child ≡ declared_by nodes
        (children node.now) result child }
    ensures object { object_in result ≡ object_of node.now }
{
    match node {
        Node::Block { .. } | Node::For { .. } | Node::Parameters { .. } => Difference::InTurn,
        Node::FieldAccess { object, .. } => Difference::Object(*object),
        Node::Call {
            object: Some(object),
            ..
        } => Difference::Object(*object),
        Node::Method {
            parameters: Some(parameters),
            ..
        } => Difference::Parameters(*parameters),
        Node::Constructor {
            parameters: Some(parameters),
            ..
        } => Difference::Parameters(*parameters),
        _ => Difference::Nothing,
    }
}

/// The children of a node of a frequent kind, of which none stands before a dot.
#[derive(Clone, Copy)]
pub enum Few<'a> {
    Nothing,
    One(NodeId),
    Two(NodeId, NodeId),
    /// Those of a list, at each of which those before it are known.
    Listed(&'a [NodeId]),
    /// The kind isn't frequent.
    More,
}

/// The children of a node, if its kind is frequent: most nodes are asked no more than this, which is much quicker than to
/// ask for the parts of all kinds.
#[tactic(auto, unfolding(scj_tree::specs::Shape::children, scj_rules::specs::Contexts::declared_before, scj_rules::specs::Contexts::object_of))]
pub fn few_of(node: &Node) -> Few<'_>
    ensures { IsFew node.now result }
{
    match node {
        Node::SimpleName { .. }
        | Node::Number { .. }
        | Node::IntType { .. }
        | Node::BooleanType { .. }
        | Node::VoidType { .. }
        | Node::True { .. }
        | Node::False { .. }
        | Node::This { .. }
        | Node::ClassType { argument: None, .. } => Few::Nothing,
        Node::Binary { left, right, .. } => Few::Two(*left, *right),
        Node::Assign { target, value, .. } => Few::Two(*target, *value),
        Node::ExpressionStatement { expression, .. } => Few::One(*expression),
        Node::Parenthesized { inner, .. } => Few::One(*inner),
        Node::Unary { operand, .. } => Few::One(*operand),
        Node::Return {
            value: Some(value),
            ..
        } => Few::One(*value),
        Node::Field {
            flags: None,
            declared_type,
            value: None,
            ..
        }
        | Node::Parameter {
            flags: None,
            declared_type,
            ..
        } => Few::One(*declared_type),
        Node::If {
            condition,
            then_part,
            else_part: None,
            ..
        } => Few::Two(*condition, *then_part),
        Node::LocalWithValue {
            flags: None,
            declared_type,
            value,
            ..
        } => Few::Two(*declared_type, *value),
        Node::Block { statements, .. } => Few::Listed(statements.items()),
        Node::Parameters { list, .. } => Few::Listed(list.items()),
        _ => Few::More,
    }
}

/// Whether the node is a field, a method or a constructor.
#[tactic(auto, unfolding(scj_rules::specs::Contexts::is_member))]
pub fn is_member(node: &Node) -> bool
    ensures { result ≡ is_member node.now }
{
    matches!(
        node,
        Node::Field { .. } | Node::Method { .. } | Node::Constructor { .. }
    )
}

/// Whether the node is a super call.
#[tactic(auto, unfolding(scj_rules::specs::Contexts::is_super_call))]
pub fn is_super_call(node: &Node) -> bool
    ensures { result ≡ is_super_call node.now }
{
    matches!(node, Node::SuperCall { .. })
}
