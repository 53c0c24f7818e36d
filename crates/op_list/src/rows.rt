//! Rows of the list.

ghost use Rattle.std.specs.Prelude.{◌≡◌};
ghost use Rattle.op_list.specs.Rows.{target};

use crate::instructions::Instruction;
use scj_model::Op;

/// An operation of a body, what it asks of the program, and the places where a run goes on behind it.
#[derive(Clone, Copy, Debug)]
pub struct Row {
    /// The operation.
    pub op: Op,
    /// The same with what it asks.
    pub instruction: Instruction,
    /// The place behind it.
    pub next: u32,
    /// For an operation with a condition: the place where it goes on if the condition is true.
    pub if_true: u32,
    /// The same if it is false.
    pub if_false: u32,
}

/// Where an operation with a condition goes on.
#[tactic(auto, unfolding(crate::specs::Rows::target))]
#[inline]
pub fn target(row: &Row, condition: bool) -> u32
    ensures { result ≡ target row.now condition }
{
    if condition { row.if_true } else { row.if_false }
}
