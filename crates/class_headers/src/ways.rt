//! What is met on the ways up from the classes as they are written, found for all classes at once by ways of which each
//! is twice as long as the one before: a chain costs little more where it is long or goes round.

ghost use Rattle.std.specs.Prelude.{◌≡◌, ◌<◌, ◌||◌, ◌==◌, ℕ, IfOk, length, map, false, slice_index_or};
ghost use Rattle.std.specs.List.{list_any};
ghost use Rattle.scj_tree.specs.Recursion.{listed, lookup};
ghost use Rattle.scj_rules.specs.Words.{holds};
ghost use Rattle.class_headers.specs.Ways.{bit_of, bits_of, has_bit, no_way, way_from, twice, AreDoubled, above_in, named_in, first_way, way_by, ends_at};

use crate::filling::Header;
use scj_base::{ClassId, Memory};
use std::alloc::{AllocError, Global};

/// What is met on a way from a class to its superclass and on.
#[derive(Clone, Copy, Debug)]
pub struct Way {
    /// Where it ends, if the chain is that long.
    pub end: Option<ClassId>,
    /// The bits of the classes on it.
    pub above: u8,
    /// The bits of their interfaces.
    pub implemented: u8,
}

/// The bit of a class, where it is one of the first eight.
#[tactic(auto, using(std::proofs::lemmas::Nat::one_shl), unfolding(crate::specs::Ways::bit_of))]
fn bit_of(class: usize) -> u8
    ensures { result ≡ bit_of class }
{
    if class < 8 { 1 << (class as u32) } else { 0 }
}

/// The bits of these classes.
#[tactic(auto, using(crate::proofs::WayLemmas::bits_push), unfolding(crate::specs::Ways::bits_of))]
fn bits_of(classes: &[ClassId]) -> u8
    ensures { result ≡ bits_of classes.now }
{
    let mut bits = 0;
    for class in classes {
        bits |= bit_of(class.number() as usize);
    }
    bits
}

/// Whether a class has a bit that is set.
#[tactic(auto, using(std::proofs::lemmas::Nat::Bits::shr_and_one), unfolding(crate::specs::Ways::has_bit))]
pub fn has_bit(bits: u8, class: ClassId) -> bool
    ensures { result ≡ has_bit bits class }
{
    let place = class.number();
    place < 8 && (bits >> place) & 1 == 1
}

/// The superclass of a class.
pub fn superclass_at(rows: &[Header], class: usize) -> Option<ClassId>
    ensures { result ≡ above_in rows.now class }
{
    let header = rows.get(class)?;
    header.superclass
}

/// The interfaces of a class.
#[tactic(auto, using(crate::proofs::WayLemmas::list_there, crate::proofs::WayLemmas::list_past))]
pub fn interfaces_at(lists: &[Vec<ClassId>], class: usize) -> &[ClassId]
    ensures { result.now ≡ named_in (map (λ v. v.items) lists.now) class }
{
    match lists.get(class) {
        Some(list) => list.as_slice(),
        None => &[],
    }
}

/// The way of one step from a class to its superclass.
#[tactic(auto, unfolding(crate::specs::Ways::first_way))]
pub fn first_way(class: usize, superclass: Option<ClassId>, interfaces: &[ClassId]) -> Way
    ensures { result ≡ first_way class superclass interfaces.now }
{
    Way {
        end: superclass,
        above: bit_of(class),
        implemented: bits_of(interfaces),
    }
}

/// The ways of one step from the classes that have these headers and interfaces.
#[tactic(auto, unfolding(scj_tree::specs::Recursion::listed))]
fn first_ways(alloc: Global, rows: &[Header], lists: &[Vec<ClassId>]) -> Result<Vec<Way>, Memory>
    ensures { IfOk result (λ ways. ways.items
        ≡ listed (way_by rows.now (map (λ v. v.items) lists.now)) (length rows.now)) }
{
    let mut ways = Vec::new(alloc);
    for class in 0..rows.len() {
        let way = first_way(
            class,
            superclass_at(rows, class),
            interfaces_at(lists, class),
        );
        ways.push(way)?;
    }
    Ok(ways)
}

/// The way from a class.
pub fn way_at(ways: &[Way], class: ClassId) -> Way
    ensures { result ≡ lookup no_way ways.now class }
{
    match ways.get(class.number() as usize) {
        Some(way) => *way,
        None => no_way(),
    }
}

/// The way from nowhere.
fn no_way() -> Way
    ensures { result ≡ no_way }
{
    Way {
        end: None,
        above: 0,
        implemented: 0,
    }
}

/// The way from a class, if there is one.
#[tactic(auto, unfolding(crate::specs::Ways::way_from))]
fn way_from(ways: &[Way], class: Option<ClassId>) -> Way
    ensures { result ≡ way_from ways.now class }
{
    match class {
        Some(class) => way_at(ways, class),
        None => no_way(),
    }
}

/// A way, and then the one from its end.
#[tactic(auto, unfolding(crate::specs::Ways::twice))]
fn twice(ways: &[Way], way: &Way) -> Way
    ensures { result ≡ twice ways.now way.now }
{
    let more = way_from(ways, way.end);
    Way {
        end: more.end,
        above: way.above | more.above,
        implemented: way.implemented | more.implemented,
    }
}

/// Ways of twice the steps.
fn doubled(alloc: Global, ways: &[Way]) -> Result<Vec<Way>, AllocError>
    ensures { IfOk result (λ more. more.items ≡ map (twice ways.now) ways.now) }
{
    ways.iter().map(|way| twice(ways, way)).collect(alloc)
}

/// Ways of as many steps as there are classes or more, from those of one step.
#[tactic(auto, using(crate::proofs::WayLemmas::of_one_step, crate::proofs::WayLemmas::twice_as_far, crate::proofs::WayLemmas::far_enough))]
pub fn far_ways(alloc: Global, first: Vec<Way>) -> Result<Vec<Way>, Memory>
    ensures { IfOk result (λ ways. AreDoubled first.items (length ways.items) ways.items) }
{
    let mut ways = first;
    let mut steps = 1usize;
    while steps < ways.len() {
        ways = doubled(alloc, &ways)?;
        steps = steps.saturating_mul(2);
    }
    Ok(ways)
}

/// Marks a class, where it is one.
fn mark(marks: &mut Vec<bool>, class: Option<ClassId>)
    ensures whole { length marks.new.items ≡ length marks.old.items }
    ensures exact { (other : ℕ) → other < length marks.old.items → slice_index_or marks.new.items other false
        ≡ (slice_index_or marks.old.items other false || holds class (λ end. other == end)) }
{
    if let Some(class) = class {
        let at = class.number() as usize;
        if at < marks.len() {
            marks[at] = true;
        }
    }
}

/// Marks for the classes where a way ends.
pub fn ends(alloc: Global, ways: &[Way]) -> Result<Vec<bool>, Memory>
    ensures whole { IfOk result (λ marks. length marks.items ≡ length ways.now) }
    ensures exact { IfOk result (λ marks. (class : ℕ) → class < length ways.now →
        slice_index_or marks.items class false ≡ list_any (ends_at class) ways.now) }
{
    let mut marks = vec![in alloc; false; ways.len()]?;
    for way in ways {
        mark(&mut marks, way.end);
    }
    Ok(marks)
}

/// Ways from the classes that have these headers and interfaces, which meet all that is on their chains.
pub fn ways_in(alloc: Global, rows: &[Header], lists: &[Vec<ClassId>]) -> Result<Vec<Way>, Memory>
    ensures { IfOk result
        (λ ways. AreDoubled (listed (way_by rows.now (map (λ v. v.items) lists.now)) (length rows.now))
        (length ways.items) ways.items) }
{
    let first = first_ways(alloc, rows, lists)?;
    let ways = far_ways(alloc, first)?;
    Ok(ways)
}

/// Whether a class is marked.
pub fn is_marked(marks: &[bool], class: ClassId) -> bool
    ensures { result ≡ slice_index_or marks.now class false }
{
    match marks.get(class.number() as usize) {
        Some(mark) => *mark,
        None => false,
    }
}
