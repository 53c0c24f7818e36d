//! What the parser has in hand between two lexemes.

use scj_base::{NodeId, Position, SharedName};
use scj_tree::{FlagSet, PostKind};

/// A type without brackets.
#[derive(Drop)]
pub enum ElementType {
    /// `int`.
    Int,
    /// `boolean`.
    Boolean,
    /// A class, with its argument if one is written.
    Reference {
        name: SharedName,
        argument: Option<NodeId>,
    },
}

/// What was read last and what is awaited: a mode for each place between two lexemes that must be told apart.
#[derive(Drop)]
pub enum Mode {
    /// Nothing was read.
    FileStart,
    /// `package` or a dot behind it: a name.
    PackageName,
    /// A name of the package: a dot or `;`.
    PackageEnd,
    /// `package ..;` or imports: an import, a class or the end.
    InImports,
    /// `import`: `static` or a name.
    ImportStart,
    /// `import static`: a name.
    ImportName,
    /// A dot in an import: a name or `*`.
    ImportDot,
    /// A name in an import: a dot or `;`.
    ImportEnd,
    /// `*` in an import: `;`.
    ImportStar,
    /// A class: a class or the end.
    InClasses,
    /// The end.
    Finished,
    /// Annotations and modifiers: more of them, or what they stand before.
    FlagsRead {
        is_local: bool,
        flags: FlagSet,
    },
    /// `@`: the annotation's name.
    At {
        position: Position,
    },
    /// The name of an annotation without effect: `(`, or what stands behind the annotation.
    PlainOpen,
    /// The `(` of such an annotation: a pair or `)`.
    PlainFirst,
    /// A comma behind a pair: a pair.
    PlainNext,
    /// A name at the begin of a pair: `=`, a dot, a comma or `)`.
    PlainName,
    /// The `=` of a pair: a value.
    PlainAssigned,
    /// A name of a pair's value: a dot, a comma or `)`.
    PlainPath,
    /// A dot in a pair's value: a name.
    PlainDot,
    /// A pair's value that is no name: a comma or `)`.
    PlainEnd,
    /// `Scope` or `RunsIn` behind `@`: `(`.
    ValueOpen,
    /// Where a scope's name is due.
    ValueStart,
    /// The name `Scope` where a scope's name is due: a dot, or what stands behind the scope's name.
    ValueScope {
        position: Position,
    },
    /// `Scope.`: a name.
    ValueDot {
        position: Position,
    },
    /// A scope's name.
    ValueRead {
        id: NodeId,
    },
    /// `@DefineScope`: `(`.
    DefineOpen {
        position: Position,
    },
    /// `@DefineScope(`: `name` or `parent`.
    DefineName {
        position: Position,
    },
    /// `name` or `parent`: `=`.
    DefineAssign {
        position: Position,
        parent_first: bool,
    },
    /// The comma behind the first value: `parent` or `name`.
    DefineOther {
        position: Position,
        parent_first: bool,
        first: NodeId,
    },
    /// The other word: `=`.
    DefineOtherAssign {
        position: Position,
        parent_first: bool,
        first: NodeId,
    },
    /// `class`: its name.
    ClassName {
        flags: Option<NodeId>,
    },
    /// A class's name: `extends`, `implements` or `{`.
    ClassNamed,
    /// `extends`, `implements` or a comma: a name.
    SuperName,
    /// The name of a super type: `<`, or what stands behind the super type.
    SuperNamed {
        position: Position,
        name: SharedName,
    },
    /// `<` behind such a name: a name.
    SuperArgumentName {
        position: Position,
        name: SharedName,
    },
    /// The argument: `>`.
    SuperArgumentEnd {
        position: Position,
        name: SharedName,
        argument: NodeId,
    },
    /// A super type.
    SuperDone {
        id: NodeId,
    },
    /// The members of a class so far: a member or `}`.
    InMembers,
    /// A name where a type is due: `<`, `[`, or what stands behind the type; of a member also `(`.
    TypeName {
        position: Position,
        name: SharedName,
    },
    /// `<` behind such a name: a name.
    TypeArgumentName {
        position: Position,
        name: SharedName,
    },
    /// The argument: `>`.
    TypeArgumentEnd {
        position: Position,
        name: SharedName,
        argument: NodeId,
    },
    /// A type: `[`, or what stands behind the type.
    TypeEnd {
        position: Position,
        element: ElementType,
    },
    /// The `[` of a type: `]`.
    TypeBracket {
        position: Position,
        element: ElementType,
    },
    /// A type with brackets.
    TypeDone {
        id: NodeId,
    },
    /// The type and the name of a member: `;`, `=` or `(`.
    MemberNamed {
        flags: Option<NodeId>,
        declared_type: NodeId,
        position: Position,
        name: SharedName,
    },
    /// `void` or `long`: the method's name.
    ResultDone {
        flags: Option<NodeId>,
        result_type: NodeId,
    },
    /// Its name: `(`.
    MethodNamed {
        flags: Option<NodeId>,
        result_type: NodeId,
        position: Position,
        name: SharedName,
    },
    /// The `=` of a field: a literal.
    LiteralStart,
    /// `-`: a number.
    LiteralMinus {
        position: Position,
    },
    /// The literal: `;`.
    LiteralDone {
        id: NodeId,
    },
    /// The `(` of a method or constructor: a parameter or `)`.
    ParametersFirst {
        position: Position,
    },
    /// A parameter: a comma or `)`.
    ParameterDone {
        id: NodeId,
    },
    /// The parameters: `{`, or `;` for a method.
    ParametersDone {
        parameters: Option<NodeId>,
    },
    /// The `{` of a constructor: `super`, a statement or `}`.
    ConstructorStart {
        position: Position,
    },
    /// `super`: `(`.
    SuperOpen {
        block_position: Position,
        position: Position,
    },
    /// `super(..)`: `;`.
    SuperEnd {
        block_position: Position,
    },
    /// Statements: a statement or `}`.
    InStatements,
    /// Where a statement is due.
    StatementStart,
    /// A statement: `else`, or what stands behind the statement.
    StatementEnd {
        id: NodeId,
    },
    /// `if`: `(`.
    IfOpen {
        position: Position,
    },
    /// `while`: `(`.
    WhileOpen {
        position: Position,
    },
    /// `for`: `(`.
    ForOpen {
        position: Position,
    },
    /// `for (`: a local with a value or an assignment.
    ForFirst,
    /// The second `;` of a `for`: an assignment.
    ForStepStart,
    /// `return`: an expression or `;`.
    ReturnStart {
        position: Position,
    },
    /// A name where a statement or the begin of a `for` is due: a type or a target.
    NameFirst {
        position: Position,
        name: SharedName,
    },
    /// `[` behind it: `]`, or an index.
    NameBracket {
        position: Position,
        name: SharedName,
        bracket: Position,
    },
    /// The type and the name of a local: `;` or `=`.
    LocalNamed {
        flags: Option<NodeId>,
        declared_type: NodeId,
        position: Position,
        name: SharedName,
    },
    /// An assignment: what stands behind it.
    Assigned {
        id: NodeId,
    },
    /// Where an operand is due.
    Operand,
    /// A name as an operand: `(`, an assignment's sign where it is a target, or what may stand behind an operand.
    NameRead {
        position: Position,
        name: SharedName,
    },
    /// `(` where an operand is due.
    Opened {
        position: Position,
    },
    /// `( Name`.
    OpenedName {
        position: Position,
        name_position: Position,
        name: SharedName,
    },
    /// `( Name )`: a cast or a name between parentheses.
    ClosedName {
        position: Position,
        name_position: Position,
        name: SharedName,
    },
    /// `-` where an operand is due.
    Minus {
        position: Position,
    },
    /// `new`: a class, `int` or `boolean`.
    NewStart {
        position: Position,
    },
    /// `new Name`: `(` or `[`.
    NewName {
        position: Position,
        name_position: Position,
        name: SharedName,
    },
    /// `new int` or `new boolean`, whose type is a node: `[`.
    NewElement {
        position: Position,
        element: NodeId,
    },
    /// An expression of names, calls and brackets, which stands at `place`: what may stand behind it.
    PostDone {
        kind: PostKind,
        position: Position,
        id: NodeId,
    },
    /// A dot behind it: a name.
    Dot {
        object: NodeId,
    },
    /// The name: `(`, or what may stand behind a field.
    DotName {
        object: NodeId,
        position: Position,
        name: SharedName,
    },
    /// The `(` of a call: an argument or `)`.
    ArgumentFirst,
    /// A comma behind an argument: an argument.
    ArgumentNext,
    /// A text as an argument: a comma or `)`.
    TextRead {
        id: NodeId,
    },
}
