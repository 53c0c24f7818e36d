//! Parts that wait to be printed.

ghost use Rattle.std.specs.Prelude.{◌≡◌, ◌∷◌, ◌++◌, [], OnOk, IfOk, MatchOption};
ghost use Rattle.scj_show.specs.Rows.{part_of};

use crate::parts::Part;
use scj_base::{Memory, NodeId, SharedName};
use std::alloc::Global;
use std::marker::Model;

/// A part as it is kept: of a long list each node waits, so a name takes no more room than a pointer.
#[derive(Debug, Drop)]
enum Row {
    Whole(NodeId),
    Bare(NodeId),
    Named(SharedName),
    Quoted(SharedName),
    Word(u8),
    Sign(u8),
    Digits(u32),
}

/// Parts in a row. A contract sees the list.
#[derive(Drop)]
pub struct Parts {
    alloc: Global,
    rows: Vec<Row>,
}

impl Model for Parts {
    ghost use Rattle.std.specs.Prelude.{List, map};
    ghost use Rattle.scj_show.specs.declared.parts.Part.{Part};
    ghost use Rattle.scj_show.specs.Rows.{part_of};

    ghost Value = { List Part };

    ghost view = { λ a. map part_of a.rows.items };
}

/// The row of a part.
#[tactic(auto, unfolding(crate::specs::Rows::part_of))]
fn row_of(alloc: Global, part: Part) -> Result<Row, Memory>
    ensures { IfOk result (λ row. part_of row ≡ part) }
{
    match part {
        Part::Whole(id) => Ok(Row::Whole(id)),
        Part::Bare(id) => Ok(Row::Bare(id)),
        Part::Named(name) => Ok(Row::Named(SharedName::new(alloc, &name)?)),
        Part::Quoted(name) => Ok(Row::Quoted(SharedName::new(alloc, &name)?)),
        Part::Word(word) => Ok(Row::Word(word)),
        Part::Sign(sign) => Ok(Row::Sign(sign)),
        Part::Digits(number) => Ok(Row::Digits(number)),
    }
}

/// The part of a row.
#[tactic(auto, unfolding(crate::specs::Rows::part_of))]
fn part_of(row: &Row) -> Part
    ensures { result ≡ part_of row.now }
{
    match row {
        Row::Whole(id) => Part::Whole(*id),
        Row::Bare(id) => Part::Bare(*id),
        Row::Named(name) => Part::Named(*name.get()),
        Row::Quoted(name) => Part::Quoted(*name.get()),
        Row::Word(word) => Part::Word(*word),
        Row::Sign(sign) => Part::Sign(*sign),
        Row::Digits(number) => Part::Digits(*number),
    }
}

impl Parts {
    /// No parts.
    pub fn new(alloc: Global) -> Parts
        ensures { result ≡ [] }
    {
        Parts {
            alloc,
            rows: Vec::new(alloc),
        }
    }

    /// Puts a part last.
    pub fn push(&mut self, part: Part) -> Result<(), Memory>
        ensures { OnOk result (self.new ≡ self.old ++ part ∷ []) }
    {
        let row = row_of(self.alloc, part)?;
        self.rows.push(row)?;
        Ok(())
    }

    /// Takes the last part, if there is one.
    pub fn pop(&mut self) -> Option<Part>
        ensures { MatchOption result (self.old ≡ [] × self.new ≡ [])
            (λ part. self.old ≡ self.new ++ part ∷ []) }
    {
        let row = self.rows.pop()?;
        Some(part_of(&row))
    }
}
