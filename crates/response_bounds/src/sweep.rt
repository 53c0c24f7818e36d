//! The responses of all rows by one search. It goes through the priorities from the highest down, and through the
//! numbers of units upwards, once for all of them: units that don't serve a priority don't serve a lower one, either.

ghost use Rattle.std.specs.Prelude.{◌≡◌, ◌≤◌, ◌<◌, ◌+◌, ◌%◌, ℕ, IfOk, length, slice_index};
ghost use Rattle.response_bounds.specs.Levels.{IsFirst, NoneBelow, added_at, added_in, level_demand};
ghost use Rattle.response_bounds.specs.Responses.{response_of, responses_of};
ghost use Rattle.response_bounds.specs.Rows.{AreDeclared, IsDeclared, highest_priority, most_units, row_at};

use crate::demands::level_demand;
use crate::responses::{Response, gap_of};
use crate::rows::Declared;
use std::alloc::{AllocError, Global};

/// From so many units on a search goes on to what is to be done. Nearer units are looked through one by one.
const FAR: u64 = 512;

/// How many units are looked through at a time.
const CHUNK: usize = 4_096;

const HIGHEST_PRIORITY: u8 = 28;

/// How far the next unit is that the gap divides.
fn first_index(gap: u64, from: u64) -> usize
    requires some { 1 ≤ gap }
    requires gap { gap ≤ most_units }
    ensures divides { (from + result) % gap ≡ 0 }
    ensures limit { result ≤ most_units }
{
    let past = from % gap;
    if past == 0 { 0 } else { (gap - past) as usize }
}

/// Adds the row's cost in each unit that its gap divides. Place 0 is that of the unit `from`.
fn add_row(added: &mut Vec<u64>, row: &Declared, from: u64)
    requires declared { IsDeclared row.now }
    requires from { from ≤ most_units }
    requires count { length added.old.items ≤ 4096 }
    ensures count { length added.new.items ≡ length added.old.items }
    ensures at_most { (k : ℕ) → slice_index added.new.items k
        ≤ slice_index added.old.items k + added_in row.now (from + k) }
{
    let mut index = first_index(row.gap, from);
    while index < added.len() {
        added[index] = added[index].saturating_add(row.cost);
        index += row.gap as usize;
    }
}

/// What the level's work grows by behind each of `count` units from `from` on.
fn added_from(
    alloc: Global,
    rows: &[Declared],
    level: u8,
    from: u64,
    count: usize,
) -> Result<Vec<u64>, AllocError>
    requires declared { AreDeclared rows.now }
    requires from { from ≤ most_units }
    requires count { count ≤ 4096 }
    ensures count { IfOk result (λ added. length added.items ≡ count) }
    ensures at_most { IfOk result (λ added. (k : ℕ) → slice_index added.items k ≤ added_at rows.now level (from + k)) }
{
    let mut added = vec![in alloc; 0u64; count]?;
    for row in 0..rows.len() {
        if rows[row].priority >= level {
            add_row(&mut added, &rows[row], from);
        }
    }
    Ok(added)
}

/// Looks through units one by one. There is `work` to be done in `from` units, more than can be, and it grows by what
/// is added behind each.
fn look_on(added: &[u64], from: u64, work: u64) -> u64
    requires some { 1 ≤ length added.now }
    requires count { length added.now ≤ 4096 }
    requires from { from ≤ most_units }
    requires above { from < work }
    ensures further { from < result }
    ensures none { (demand : ℕ → ℕ) → work ≤ demand from →
        ((k : ℕ) → demand (from + k) + slice_index added.now k ≤ demand (from + k + 1)) →
        (y : ℕ) → from ≤ y → y < result → y < demand y }
{
    let mut sum = work.saturating_add(added[0]);
    let mut index: usize = 1;
    while index < added.len() && from + (index as u64) < sum {
        sum = sum.saturating_add(added[index]);
        index += 1;
    }
    from + index as u64
}

/// More units, where so many don't serve, and fewer than those don't, either.
fn further(
    alloc: Global,
    rows: &[Declared],
    level: u8,
    units: u64,
    demand: u64,
) -> Result<u64, AllocError>
    requires declared { AreDeclared rows.now }
    requires units { units ≤ most_units }
    requires demand { demand ≡ level_demand rows.now level units }
    requires above { units < demand }
    ensures further { IfOk result (λ more. units < more) }
    ensures none { NoneBelow rows.now level units → IfOk result (λ more. NoneBelow rows.now level more) }
{
    if demand - units >= FAR {
        return Ok(demand);
    }
    let added = added_from(alloc, rows, level, units, CHUNK)?;
    Ok(look_on(&added, units, demand))
}

/// The fewest units that serve the level, or more than `most`. Fewer than `from` don't serve.
fn search(
    alloc: Global,
    rows: &[Declared],
    level: u8,
    from: u64,
    most: u64,
) -> Result<u64, AllocError>
    requires declared { AreDeclared rows.now }
    requires from { 1 ≤ from }
    requires most { most ≤ most_units }
    ensures from { IfOk result (λ units. 1 ≤ units) }
    ensures none { NoneBelow rows.now level from → IfOk result (λ units. NoneBelow rows.now level units) }
    ensures serves { IfOk result (λ units. units ≤ most → level_demand rows.now level units ≤ units) }
{
    let mut units = from;
    while units <= most {
        let demand = level_demand(rows, level, units);
        if demand <= units {
            return Ok(units);
        }
        units = further(alloc, rows, level, units, demand)?;
    }
    Ok(units)
}

/// The greatest gap of the level's rows, and 0 without one.
#[tactic(auto, unfolding(crate::specs::Rows::row_at))]
fn greatest_gap(rows: &[Declared], level: u8) -> u64
    requires { AreDeclared rows.now }
    ensures greatest { (i : ℕ) → i < length rows.now → (row_at rows.now i).priority ≡ level → (row_at rows.now i).gap ≤ result }
    ensures limit { result ≤ most_units }
{
    let mut greatest: u64 = 0;
    for row in 0..rows.len() {
        if rows[row].priority == level {
            greatest = greatest.max(gap_of(rows, row));
        }
    }
    greatest
}

/// For each level the fewest units that serve it, at the place of its number.
fn first_units(alloc: Global, rows: &[Declared]) -> Result<Vec<u64>, AllocError>
    requires { AreDeclared rows.now }
    ensures count { IfOk result (λ units. length units.items ≡ 29) }
    ensures first { IfOk result (λ units. (level : ℕ) → 1 ≤ level → level ≤ highest_priority →
        IsFirst rows.now level (slice_index units.items level)) }
{
    let mut firsts = vec![in alloc; 0u64; 29]?;
    let mut level = HIGHEST_PRIORITY;
    let mut units: u64 = 1;
    while level > 0 {
        units = search(alloc, rows, level, units, greatest_gap(rows, level))?;
        firsts[level as usize] = units;
        level -= 1;
    }
    Ok(firsts)
}

fn priority_in(row: &Declared) -> u8
    requires { IsDeclared row.now }
    ensures priority { result ≡ row.now.priority }
    ensures least { 1 ≤ result }
    ensures limit { result ≤ highest_priority }
{
    row.priority
}

#[tactic(auto, unfolding(crate::specs::Rows::row_at))]
fn priority_of(rows: &[Declared], row: usize) -> u8
    requires declared { AreDeclared rows.now }
    requires row { row < length rows.now }
    ensures priority { result ≡ (row_at rows.now row).priority }
    ensures least { 1 ≤ result }
    ensures limit { result ≤ highest_priority }
{
    priority_in(&rows[row])
}

/// The response of the row, by the fewest units that serve its priority.
fn response_by(rows: &[Declared], row: usize, units: u64) -> Response
    requires declared { AreDeclared rows.now }
    requires row { row < length rows.now }
    requires first { IsFirst rows.now (row_at rows.now row).priority units }
    ensures { result ≡ response_of rows.now row }
{
    if units <= gap_of(rows, row) {
        Response::Bound { units }
    } else {
        Response::NoBound
    }
}

/// The response of each row, in the order of the rows.
#[tactic(auto, unfolding(crate::specs::Responses::responses_of, crate::specs::Responses::responses_below))]
pub fn respond(alloc: Global, rows: &[Declared]) -> Result<Vec<Response>, AllocError>
    requires { AreDeclared rows.now }
    ensures { IfOk result (λ answer. answer.items ≡ responses_of rows.now) }
{
    let firsts = first_units(alloc, rows)?;
    let mut answer = Vec::new(alloc);
    for row in 0..rows.len() {
        let units = firsts[priority_of(rows, row) as usize];
        answer.push(response_by(rows, row, units))?;
    }
    Ok(answer)
}
