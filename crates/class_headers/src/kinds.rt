//! The kinds of class of which a class can be of one at most.

ghost use Rattle.std.specs.Prelude.{◌≡◌, ◌==◌, ◌++◌, not, filter, IfOk, OnOk};
ghost use Rattle.std.specs.List.{list_any};
ghost use Rattle.scj_rules.specs.Words.{is_among};
ghost use Rattle.scj_rules.specs.Classes.{kinds, kinds_of, more_than_one, brings_too_many, with_kinds};
ghost use Rattle.scj_rules.specs.Contexts.{declarations_of};
ghost use Rattle.class_headers.specs.Ways.{has_bit};

use crate::filling::Headers;
use crate::ways::has_bit;
use scj_base::ids::{
    APERIODIC_EVENT_HANDLER, MISSION, MISSION_SEQUENCER, PERIODIC_EVENT_HANDLER, RUNNABLE, SAFELET,
};
use scj_base::{ClassId, Memory};
use std::alloc::{AllocError, Global};

/// Whether a class stands among these.
fn is_listed(class: ClassId, classes: &[ClassId]) -> bool
    ensures { result ≡ is_among class classes.now }
{
    classes.iter().any(|other| class == *other)
}

/// Whether another class stands among these.
fn has_other(classes: &[ClassId], class: ClassId) -> bool
    ensures { result ≡ list_any (λ other. not (other == class)) classes.now }
{
    classes.iter().any(|other| *other != class)
}

/// Whether two lists together have more than one class.
#[tactic(auto, unfolding(scj_rules::specs::Classes::more_than_one))]
fn more_than_one(there: &[ClassId], brought: &[ClassId]) -> bool
    ensures { result ≡ more_than_one (there.now ++ brought.now) }
{
    match there {
        [first, others @ ..] => has_other(others, *first) || has_other(brought, *first),
        [] => match brought {
            [first, others @ ..] => has_other(others, *first),
            [] => false,
        },
    }
}

/// Whether one of the classes isn't there.
fn has_new(there: &[ClassId], brought: &[ClassId]) -> bool
    ensures { result ≡ list_any (λ class. not (is_among class there.now)) brought.now }
{
    brought.iter().any(|class| !is_listed(*class, there))
}

/// Whether these kinds, brought to those that are there, make too many.
pub fn brings_too_many(there: &[ClassId], brought: &[ClassId]) -> bool
    ensures { result ≡ brings_too_many there.now brought.now }
{
    has_new(there, brought) && more_than_one(there, brought)
}

/// Adds kinds to those that are there, without repeating any.
#[tactic(auto, unfolding(scj_rules::specs::Classes::with_kinds))]
pub fn add_kinds(kinds: &[ClassId], there: &mut Vec<ClassId>) -> Result<(), Memory>
    ensures { OnOk result (there.new.items ≡ with_kinds there.old.items kinds.now) }
{
    let mut others = kinds;
    while let [kind, rest @ ..] = others {
        if !is_listed(*kind, there) {
            there.push(*kind)?;
        }
        others = rest;
    }
    Ok(())
}

/// The kinds whose bits are set.
fn kinds_in(alloc: Global, bits: u8) -> Result<Vec<ClassId>, AllocError>
    ensures { IfOk result (λ found. found.items ≡ filter (has_bit bits) kinds) }
{
    let kinds = [
        MISSION,
        MISSION_SEQUENCER,
        PERIODIC_EVENT_HANDLER,
        APERIODIC_EVENT_HANDLER,
        RUNNABLE,
        SAFELET,
    ];
    kinds
        .iter()
        .copied()
        .filter(|kind| has_bit(bits, *kind))
        .collect(alloc)
}

impl<'a> Headers<'a> {
    /// The kinds of a class.
    pub fn kinds_of(&self, alloc: Global, class: ClassId) -> Result<Vec<ClassId>, Memory>
        ensures { IfOk result (λ kinds. kinds.items ≡ kinds_of (declarations_of self.now).written class) }
    {
        let kinds = kinds_in(alloc, self.bits(class))?;
        Ok(kinds)
    }
}
