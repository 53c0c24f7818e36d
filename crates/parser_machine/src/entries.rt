//! What the parser has put aside.

use scj_base::{NodeId, Position, SharedName};
use scj_tree::{FlagSet, NodeList};

/// A production that was begun, with the parts of it that were read.
#[derive(Drop)]
pub enum Entry {
    /// A file.
    FileOpen {
        classes: NodeList,
    },
    /// The flags before an annotation, with its place.
    AnnotationOpen {
        is_local: bool,
        flags: FlagSet,
    },
    /// `@Scope(`.
    ScopeOpen,
    /// `@RunsIn(`.
    RunsInOpen,
    /// `@DefineScope(name=`, or `parent=` where `parent_first` holds.
    DefineFirst {
        position: Position,
        parent_first: bool,
    },
    /// The same up to the second `=`.
    DefineSecond {
        position: Position,
        parent_first: bool,
        first: NodeId,
    },
    /// A class up to its name.
    ClassOpen {
        flags: Option<NodeId>,
        position: Position,
        name: SharedName,
    },
    /// `extends` or `implements`, where `is_extends` does not hold, and what was read behind it.
    SupersOpen {
        position: Position,
        is_extends: bool,
        superclass: Option<NodeId>,
        interfaces: NodeList,
    },
    /// A class with the members so far.
    ClassBody {
        flags: Option<NodeId>,
        position: Position,
        name: SharedName,
        header: Option<NodeId>,
        members: NodeList,
    },
    /// The flags of a member.
    MemberOpen {
        flags: Option<NodeId>,
    },
    /// The flags of a parameter.
    ParameterOpen {
        flags: Option<NodeId>,
    },
    /// The flags of a local.
    LocalOpen {
        flags: Option<NodeId>,
    },
    /// A field up to the `=`, which stands at `equals`.
    FieldOpen {
        flags: Option<NodeId>,
        declared_type: NodeId,
        position: Position,
        name: SharedName,
        equals: Position,
    },
    /// A method up to its name.
    MethodOpen {
        flags: Option<NodeId>,
        result_type: NodeId,
        position: Position,
        name: SharedName,
    },
    /// A constructor up to its name.
    ConstructorOpen {
        flags: Option<NodeId>,
        position: Position,
        name: SharedName,
    },
    /// The `(` at `place` and the parameters so far.
    ParametersOpen {
        position: Position,
        list: NodeList,
    },
    /// A method up to its body.
    MethodBody {
        flags: Option<NodeId>,
        result_type: NodeId,
        position: Position,
        name: SharedName,
        parameters: Option<NodeId>,
    },
    /// A constructor up to its body, with the super call if there is one.
    ConstructorBody {
        flags: Option<NodeId>,
        position: Position,
        name: SharedName,
        parameters: Option<NodeId>,
        super_call: Option<NodeId>,
    },
    /// The `{` at `place` and the statements so far.
    BlockOpen {
        position: Position,
        statements: NodeList,
    },
    /// A local, an assignment or a call as a statement, up to its `;`.
    Simple,
    /// `for (`.
    ForHead {
        position: Position,
    },
    /// `for (first;`.
    ForTest {
        position: Position,
        first: NodeId,
    },
    /// `for (first; condition;`.
    ForStep {
        position: Position,
        first: NodeId,
        condition: NodeId,
    },
    /// `for (first; condition; step)`.
    ForBody {
        position: Position,
        first: NodeId,
        condition: NodeId,
        step: NodeId,
    },
    /// `if (`.
    IfTest {
        position: Position,
    },
    /// `if (condition)`.
    IfThen {
        position: Position,
        condition: NodeId,
    },
    /// `if (condition) then_part else`.
    IfElse {
        position: Position,
        condition: NodeId,
        then_part: NodeId,
    },
    /// `while (`.
    WhileTest {
        position: Position,
    },
    /// `while (condition)`.
    WhileBody {
        position: Position,
        condition: NodeId,
    },
    /// `return`.
    ReturnValue {
        position: Position,
    },
    /// Where the target of an assignment or a call as a statement is due: no operator stands behind it.
    Target,
    /// `target =`; the `=` stands at `place`.
    AssignValue {
        position: Position,
        target: NodeId,
    },
    /// `target op=`, with the name once more as the left operand.
    CompoundValue {
        position: Position,
        operator: u8,
        target: NodeId,
        left: NodeId,
    },
    /// A local up to its `=`, at `place`.
    LocalValue {
        position: Position,
        name_position: Position,
        name: SharedName,
        flags: Option<NodeId>,
        declared_type: NodeId,
    },
    /// A left operand and its operator.
    BinaryLeft {
        position: Position,
        operator: u8,
        left: NodeId,
    },
    /// A unary operator.
    UnaryOpen {
        position: Position,
        operator: u8,
    },
    /// `( Name )` of a cast.
    CastOpen {
        position: Position,
        name_position: Position,
        name: SharedName,
    },
    /// `(` around an expression.
    GroupOpen {
        position: Position,
    },
    /// `array[`; the `[` stands at `place`.
    IndexOpen {
        position: Position,
        array: NodeId,
    },
    /// `new element[`.
    LengthOpen {
        position: Position,
        element: NodeId,
    },
    /// The arguments so far; below is what they are arguments of.
    ArgumentsOpen {
        list: NodeList,
    },
    /// The name of a call.
    CallOpen {
        position: Position,
        name: SharedName,
        object: Option<NodeId>,
    },
    /// `new Name`.
    NewOpen {
        position: Position,
        name_position: Position,
        name: SharedName,
    },
    /// `super`, in a constructor whose body begins at `block_position`.
    SuperCallOpen {
        block_position: Position,
        position: Position,
    },
}
