//! The kinds of nodes.

ghost use Rattle.std.specs.Prelude.{◌≡◌};
ghost use Rattle.scj_tree.specs.Kinds.{kind_of};

use crate::nodes::Node;

/// The kind of a node: which variant of [`Node`] it is, in one byte. What asks for nodes of few kinds among all of a
/// program finds them by their kinds without a look at the nodes themselves.
#[derive(Clone, Copy, Debug)]
pub enum NodeKind {
    Class,
    Flags,
    DefineScope,
    ScopeName,
    Supers,
    SuperType,
    TypeArgument,
    IntType,
    BooleanType,
    ClassType,
    VoidType,
    LongType,
    Field,
    Method,
    Constructor,
    Parameters,
    Parameter,
    SuperCall,
    Block,
    Empty,
    Local,
    LocalWithValue,
    Assign,
    ExpressionStatement,
    If,
    While,
    For,
    Return,
    Binary,
    Unary,
    Cast,
    Parenthesized,
    SimpleName,
    FieldAccess,
    Call,
    Element,
    New,
    NewArray,
    Text,
    Number,
    True,
    False,
    Null,
    This,
}

impl Node {
    /// The kind of the node.
    #[tactic(auto, unfolding(crate::specs::Kinds::kind_of))]
    pub fn kind(&self) -> NodeKind
        ensures { result ≡ kind_of self.now }
    {
        match self {
            Node::Class { .. } => NodeKind::Class,
            Node::Flags { .. } => NodeKind::Flags,
            Node::DefineScope { .. } => NodeKind::DefineScope,
            Node::ScopeName { .. } => NodeKind::ScopeName,
            Node::Supers { .. } => NodeKind::Supers,
            Node::SuperType { .. } => NodeKind::SuperType,
            Node::TypeArgument { .. } => NodeKind::TypeArgument,
            Node::IntType { .. } => NodeKind::IntType,
            Node::BooleanType { .. } => NodeKind::BooleanType,
            Node::ClassType { .. } => NodeKind::ClassType,
            Node::VoidType { .. } => NodeKind::VoidType,
            Node::LongType { .. } => NodeKind::LongType,
            Node::Field { .. } => NodeKind::Field,
            Node::Method { .. } => NodeKind::Method,
            Node::Constructor { .. } => NodeKind::Constructor,
            Node::Parameters { .. } => NodeKind::Parameters,
            Node::Parameter { .. } => NodeKind::Parameter,
            Node::SuperCall { .. } => NodeKind::SuperCall,
            Node::Block { .. } => NodeKind::Block,
            Node::Empty { .. } => NodeKind::Empty,
            Node::Local { .. } => NodeKind::Local,
            Node::LocalWithValue { .. } => NodeKind::LocalWithValue,
            Node::Assign { .. } => NodeKind::Assign,
            Node::ExpressionStatement { .. } => NodeKind::ExpressionStatement,
            Node::If { .. } => NodeKind::If,
            Node::While { .. } => NodeKind::While,
            Node::For { .. } => NodeKind::For,
            Node::Return { .. } => NodeKind::Return,
            Node::Binary { .. } => NodeKind::Binary,
            Node::Unary { .. } => NodeKind::Unary,
            Node::Cast { .. } => NodeKind::Cast,
            Node::Parenthesized { .. } => NodeKind::Parenthesized,
            Node::SimpleName { .. } => NodeKind::SimpleName,
            Node::FieldAccess { .. } => NodeKind::FieldAccess,
            Node::Call { .. } => NodeKind::Call,
            Node::Element { .. } => NodeKind::Element,
            Node::New { .. } => NodeKind::New,
            Node::NewArray { .. } => NodeKind::NewArray,
            Node::Text { .. } => NodeKind::Text,
            Node::Number { .. } => NodeKind::Number,
            Node::True { .. } => NodeKind::True,
            Node::False { .. } => NodeKind::False,
            Node::Null { .. } => NodeKind::Null,
            Node::This { .. } => NodeKind::This,
        }
    }
}
