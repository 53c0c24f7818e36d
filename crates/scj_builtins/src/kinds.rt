//! Kinds of classes, of parameters, of results and of the scopes that methods run in.

/// What a class may be used for.
#[derive(Clone, Copy, Debug, PartialEq, Eq)]
pub enum ClassKind {
    /// A class that has objects.
    Concrete,
    /// A class that is extended alone.
    Abstract,
    /// An interface.
    Interface,
    /// A class of static methods alone.
    Static,
    /// A part of the form with which the constructor of a handler or a sequencer begins.
    Form,
}

/// The type of a parameter of a framework method.
#[derive(Clone, Copy, Debug, PartialEq, Eq)]
pub enum ParameterKind {
    /// `int`.
    Int,
    /// A text.
    Text,
    /// `Object`.
    Object,
    /// `Runnable`.
    Runnable,
}

/// The parameters of a framework method: two at most.
#[derive(Clone, Copy, Debug, PartialEq, Eq)]
pub enum Parameters {
    /// No parameter.
    Empty,
    /// One parameter.
    One(ParameterKind),
    /// Two parameters.
    Two(ParameterKind, ParameterKind),
}

/// What a framework method leaves as its value.
#[derive(Clone, Copy, Debug, PartialEq, Eq)]
pub enum GivesKind {
    /// No value.
    Nothing,
    /// An `int`.
    Number,
    /// A `long`.
    Long,
    /// A `boolean`.
    Truth,
    /// A mission sequencer.
    Sequencer,
    /// A mission.
    Mission,
}

/// The scope in which the framework lets every declaration of one of its methods run.
#[derive(Clone, Copy, Debug, PartialEq, Eq)]
pub enum RunsInKind {
    /// `IMMORTAL`.
    Immortal,
    /// The scope that the class or one above it defines, `CALLER` where none does.
    DefinedOrCaller,
    /// The scope that the class or one above it defines. Where none does, the declaration decides.
    DefinedOrDeclared,
    /// `CALLER`.
    Caller,
}
