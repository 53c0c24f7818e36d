//! What is told of each handler class.

use scj_base::{ClassId, Position};
use std::marker::Model;

/// Why it can't be told that a release of a handler class never fills its private memory, in the order in which it is
/// asked.
#[derive(Clone, Copy, Debug, PartialEq, Eq)]
pub enum NoBound {
    /// A body that a release may come to may be run again while it runs.
    Recursion,
    /// A size or a length isn't a literal.
    NotLiteral,
    /// Something is made in the area of another object.
    OuterArea,
    /// Something is made in a loop.
    NewInLoop,
    /// A memory is smaller than what is put into it.
    TooSmall,
}

/// Whether the private memory of a handler's releases suffices.
#[derive(Clone, Copy, Debug, PartialEq, Eq)]
pub enum BoundAnswer {
    /// It does: a release puts this much into it at most.
    Yes {
        /// The bytes.
        bytes: u64,
    },
    /// That can't be told.
    No {
        /// Why.
        cause: NoBound,
        /// The first place that shows it.
        at: Position,
    },
}

/// What is told of a concrete handler class.
#[derive(Clone, Copy, Debug, PartialEq, Eq)]
pub struct BoundRow {
    /// The class.
    pub handler: ClassId,
    /// The answer.
    pub answer: BoundAnswer,
}

/// The rows of the concrete handler classes, in the order of their places. A contract sees the list of them.
#[derive(Drop)]
pub struct BoundRows(pub Vec<BoundRow>);

impl Model for BoundRows {
    ghost use Rattle.std.specs.Prelude.{List};
    ghost use Rattle.memory_needs.specs.declared.answers.BoundRow.{BoundRow as Row};

    ghost Value = { List Row };

    ghost view = { λ rows. rows.0.items };
}

/// What is told of a program.
#[derive(Drop)]
pub struct Bounds {
    /// A row for each concrete handler class.
    pub rows: BoundRows,
    /// The bytes of a store that no release finds too small; none where some class has No.
    pub need: Option<u64>,
}
