//! The nodes of a tree: one variant for each production of the grammar that makes a node.

ghost use Rattle.std.specs.Prelude.{◌≡◌};

use crate::lists::{NodeList, TextBytes};
use scj_base::{NodeId, Position, SharedName};
use std::mem::size_of;

/// A node of a program's tree. Its children are nodes that were added before it, and stand in the node in the
/// order of the source. `place` is where reports name the node: its first token, but for a binary operator the
/// operator, for a field access or a call the name, for an element the `[`, for an assignment and for a local
/// with a value the `=`, for a declaration its name, and for an annotation's value the value.
#[derive(Drop)]
pub enum Node {
    /// A class: `class Name ..{ .. }` (JLS 8.1). `header` is a [`Node::Supers`], there where a superclass or an
    /// interface is written.
    Class {
        position: Position,
        name: SharedName,
        flags: Option<NodeId>,
        header: Option<NodeId>,
        members: NodeList,
    },
    /// The annotations and modifiers with an effect before a class, a member, a parameter or a local; there where
    /// at least one is written. `place` is the first annotation or modifier, with an effect or without.
    Flags {
        position: Position,
        define_scope: Option<NodeId>,
        scope: Option<NodeId>,
        runs_in: Option<NodeId>,
        is_static: bool,
        is_abstract: bool,
        is_synchronized: bool,
    },
    /// `@DefineScope(name=.., parent=..)`: the two values in the order of the source, the parent's first where
    /// `parent_first` holds. `place` is the `@`.
    DefineScope {
        position: Position,
        first: NodeId,
        second: NodeId,
        parent_first: bool,
    },
    /// The name of a scope in an annotation, written bare, between quotes or behind `Scope.`.
    ScopeName {
        position: Position,
        name: SharedName,
    },
    /// What stands after the name of a class: the [`Node::SuperType`] after `extends`, and those after `implements`.
    /// `place` is the first of the two words.
    Supers {
        position: Position,
        superclass: Option<NodeId>,
        interfaces: NodeList,
    },
    /// A class named after `extends` or `implements`, with its type argument if one is written.
    SuperType {
        position: Position,
        name: SharedName,
        argument: Option<NodeId>,
    },
    /// A type argument: the name between `<` and `>`.
    TypeArgument {
        position: Position,
        name: SharedName,
    },
    /// `int`, or `int[]` where `is_array` holds.
    IntType {
        position: Position,
        is_array: bool,
    },
    /// `boolean`, or `boolean[]` where `is_array` holds.
    BooleanType {
        position: Position,
        is_array: bool,
    },
    /// A class type, or an array of one where `is_array` holds.
    ClassType {
        position: Position,
        name: SharedName,
        argument: Option<NodeId>,
        is_array: bool,
    },
    /// The result `void`.
    VoidType {
        position: Position,
    },
    /// The result `long`.
    LongType {
        position: Position,
    },
    /// A field (JLS 8.3), with the literal after `=` if one is written; `equals` is the place of that `=`.
    Field {
        position: Position,
        name: SharedName,
        flags: Option<NodeId>,
        declared_type: NodeId,
        equals: Option<Position>,
        value: Option<NodeId>,
    },
    /// A method (JLS 8.4); without a body where `;` stands in its place. `parameters` is a [`Node::Parameters`],
    /// there where at least one is written.
    Method {
        position: Position,
        name: SharedName,
        flags: Option<NodeId>,
        result_type: NodeId,
        parameters: Option<NodeId>,
        body: Option<NodeId>,
    },
    /// A constructor (JLS 8.8). `super_call` is a [`Node::SuperCall`], there where one is written; the body is a
    /// [`Node::Block`] of the statements behind it, whose place is the `{`.
    Constructor {
        position: Position,
        name: SharedName,
        flags: Option<NodeId>,
        parameters: Option<NodeId>,
        super_call: Option<NodeId>,
        body: NodeId,
    },
    /// The parameters between the parentheses of a declaration, at least one. `place` is the `(`.
    Parameters {
        position: Position,
        list: NodeList,
    },
    /// A parameter (JLS 8.4.1).
    Parameter {
        position: Position,
        name: SharedName,
        flags: Option<NodeId>,
        declared_type: NodeId,
    },
    /// `super(..);` at the begin of a constructor (JLS 8.8.7.1).
    SuperCall {
        position: Position,
        arguments: NodeList,
    },
    /// A block of statements (JLS 14.2).
    Block {
        position: Position,
        statements: NodeList,
    },
    /// The statement `;`.
    Empty {
        position: Position,
    },
    /// A local without a value (JLS 14.4).
    Local {
        position: Position,
        name: SharedName,
        flags: Option<NodeId>,
        declared_type: NodeId,
    },
    /// A local with a value; `place` is the `=` and `name_position` the name.
    LocalWithValue {
        position: Position,
        name_position: Position,
        name: SharedName,
        flags: Option<NodeId>,
        declared_type: NodeId,
        value: NodeId,
    },
    /// An assignment to a name, a field or an element (JLS 15.26).
    Assign {
        position: Position,
        target: NodeId,
        value: NodeId,
    },
    /// A call or a `new` as a statement; `place` is the expression's.
    ExpressionStatement {
        position: Position,
        expression: NodeId,
    },
    /// `if` (JLS 14.9).
    If {
        position: Position,
        condition: NodeId,
        then_part: NodeId,
        else_part: Option<NodeId>,
    },
    /// `while` (JLS 14.12).
    While {
        position: Position,
        condition: NodeId,
        body: NodeId,
    },
    /// `for` (JLS 14.14): `first` is a [`Node::LocalWithValue`] or a [`Node::Assign`], `step` a [`Node::Assign`].
    For {
        position: Position,
        first: NodeId,
        condition: NodeId,
        step: NodeId,
        body: NodeId,
    },
    /// `return` (JLS 14.17).
    Return {
        position: Position,
        value: Option<NodeId>,
    },
    /// A binary operator, by its sign (JLS 15.17 to 15.24).
    Binary {
        position: Position,
        operator: u8,
        left: NodeId,
        right: NodeId,
    },
    /// A unary operator, by its sign (JLS 15.15).
    Unary {
        position: Position,
        operator: u8,
        operand: NodeId,
    },
    /// A cast to a class (JLS 15.16); `place` is the `(`.
    Cast {
        position: Position,
        name_position: Position,
        name: SharedName,
        operand: NodeId,
    },
    /// A parenthesised expression.
    Parenthesized {
        position: Position,
        inner: NodeId,
    },
    /// A name: a local, a parameter, a field, or a class before a dot.
    SimpleName {
        position: Position,
        name: SharedName,
    },
    /// `object.name`.
    FieldAccess {
        position: Position,
        name: SharedName,
        object: NodeId,
    },
    /// `object.name(..)`, or `name(..)` without an object.
    Call {
        position: Position,
        name: SharedName,
        object: Option<NodeId>,
        arguments: NodeList,
    },
    /// `array[index]`; `place` is the `[`.
    Element {
        position: Position,
        array: NodeId,
        index: NodeId,
    },
    /// `new Name(..)` (JLS 15.9); `place` is the word `new`.
    New {
        position: Position,
        name_position: Position,
        name: SharedName,
        arguments: NodeList,
    },
    /// `new Type[length]` (JLS 15.10): `element` is a type that is no array and has no argument.
    NewArray {
        position: Position,
        element: NodeId,
        length: NodeId,
    },
    /// A text as an argument: the bytes between its quotes.
    Text {
        position: Position,
        text: TextBytes,
    },
    /// A number; `is_negative` holds where the `-` before it belongs to the literal.
    Number {
        position: Position,
        value: u32,
        is_negative: bool,
    },
    /// `true`.
    True {
        position: Position,
    },
    /// `false`.
    False {
        position: Position,
    },
    /// `null`.
    Null {
        position: Position,
    },
    /// `this`.
    This {
        position: Position,
    },
}

impl Node {
    ghost use Rattle.scj_tree.specs.Shape.{position_of};

    /// Where reports name the node.
    #[tactic(auto, unfolding(crate::specs::Shape::position_of))]
    pub fn position(&self) -> Position
        ensures { result ≡ position_of self.now }
    {
        match self {
            Node::Class { position, .. } => *position,
            Node::Flags { position, .. } => *position,
            Node::DefineScope { position, .. } => *position,
            Node::ScopeName { position, .. } => *position,
            Node::Supers { position, .. } => *position,
            Node::SuperType { position, .. } => *position,
            Node::TypeArgument { position, .. } => *position,
            Node::IntType { position, .. } => *position,
            Node::BooleanType { position, .. } => *position,
            Node::ClassType { position, .. } => *position,
            Node::VoidType { position, .. } => *position,
            Node::LongType { position, .. } => *position,
            Node::Field { position, .. } => *position,
            Node::Method { position, .. } => *position,
            Node::Constructor { position, .. } => *position,
            Node::Parameters { position, .. } => *position,
            Node::Parameter { position, .. } => *position,
            Node::SuperCall { position, .. } => *position,
            Node::Block { position, .. } => *position,
            Node::Empty { position, .. } => *position,
            Node::Local { position, .. } => *position,
            Node::LocalWithValue { position, .. } => *position,
            Node::Assign { position, .. } => *position,
            Node::ExpressionStatement { position, .. } => *position,
            Node::If { position, .. } => *position,
            Node::While { position, .. } => *position,
            Node::For { position, .. } => *position,
            Node::Return { position, .. } => *position,
            Node::Binary { position, .. } => *position,
            Node::Unary { position, .. } => *position,
            Node::Cast { position, .. } => *position,
            Node::Parenthesized { position, .. } => *position,
            Node::SimpleName { position, .. } => *position,
            Node::FieldAccess { position, .. } => *position,
            Node::Call { position, .. } => *position,
            Node::Element { position, .. } => *position,
            Node::New { position, .. } => *position,
            Node::NewArray { position, .. } => *position,
            Node::Text { position, .. } => *position,
            Node::Number { position, .. } => *position,
            Node::True { position, .. } => *position,
            Node::False { position, .. } => *position,
            Node::Null { position, .. } => *position,
            Node::This { position, .. } => *position,
        }
    }
}

const _: () = prove!(size_of::<Node>() <= 128);
