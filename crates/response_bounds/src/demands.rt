//! The work that is to be done until a release has ended: what blocks it, its own cost, and the work of others.

ghost use Rattle.std.specs.Prelude.{◌≡◌, ◌≤◌, ◌<◌, ◌*◌, length};
ghost use Rattle.response_bounds.specs.Levels.{level_blocking, level_demand, level_work};
ghost use Rattle.response_bounds.specs.Rows.{AreDeclared, IsDeclared, blocking, demand, most_units, other_work, row_at, section_at, work_at};

use crate::rows::Declared;

/// The section with which the row may block at the level.
fn section_at(level: u8, row: &Declared) -> u64
    requires { IsDeclared row.now }
    ensures section { result ≡ section_at level row.now }
    ensures limit { result ≤ most_units }
{
    if row.priority < level && row.ceiling >= level {
        row.section
    } else {
        0
    }
}

/// The work of the row at the level in so many units.
fn work_at(level: u8, row: &Declared, units: u64) -> u64
    requires declared { IsDeclared row.now }
    requires units { units ≤ most_units }
    ensures work { result ≡ work_at level row.now units }
    ensures limit { result ≤ most_units * most_units }
{
    if row.priority >= level {
        (units + (row.gap - 1)) / row.gap * row.cost
    } else {
        0
    }
}

/// How many operations of a release of lower priority may be done first.
#[tactic(auto, unfolding(crate::specs::Sums::max_below, crate::specs::Rows::row_at, crate::specs::Rows::section_over, crate::specs::Rows::blocking))]
pub fn blocking(rows: &[Declared], row: usize) -> u64
    requires declared { AreDeclared rows.now }
    requires row { row < length rows.now }
    ensures blocking { result ≡ blocking rows.now row }
    ensures limit { result ≤ most_units }
{
    let mut greatest: u64 = 0;
    for other in 0..rows.len() {
        greatest = greatest.max(section_at(rows[row].priority, &rows[other]));
    }
    greatest
}

/// The work of the other rows in so many units.
#[tactic(auto, unfolding(crate::specs::Sums::sum_below, crate::specs::Rows::row_at, crate::specs::Rows::work_over, crate::specs::Rows::other_work))]
pub fn other_work(rows: &[Declared], row: usize, units: u64) -> u64
    requires declared { AreDeclared rows.now }
    requires row { row < length rows.now }
    requires units { units ≤ most_units }
    ensures work { result ≡ other_work rows.now row units }
    ensures limit { result ≤ 64 * (most_units * most_units) }
{
    let mut sum: u64 = 0;
    for other in 0..rows.len() {
        if other != row {
            sum += work_at(rows[row].priority, &rows[other], units);
        }
    }
    sum
}

fn cost_in(row: &Declared) -> u64
    requires { IsDeclared row.now }
    ensures cost { result ≡ row.now.cost }
    ensures least { 1 ≤ result }
    ensures limit { result ≤ most_units }
{
    row.cost
}

/// The operations of a release of the row.
#[tactic(auto, unfolding(crate::specs::Rows::row_at))]
pub fn cost_of(rows: &[Declared], row: usize) -> u64
    requires declared { AreDeclared rows.now }
    requires row { row < length rows.now }
    ensures cost { result ≡ (row_at rows.now row).cost }
    ensures least { 1 ≤ result }
    ensures limit { result ≤ most_units }
{
    cost_in(&rows[row])
}

/// What is to be done in so many units until a release of the row has ended.
#[tactic(auto, unfolding(crate::specs::Rows::demand))]
pub fn demand(rows: &[Declared], row: usize, units: u64) -> u64
    requires declared { AreDeclared rows.now }
    requires row { row < length rows.now }
    requires units { units ≤ most_units }
    ensures demand { result ≡ demand rows.now row units }
    ensures limit { result ≤ 65 * (most_units * most_units) }
{
    blocking(rows, row) + cost_of(rows, row) + other_work(rows, row, units)
}

/// The greatest section that may block at the level.
#[tactic(auto, unfolding(crate::specs::Sums::max_below, crate::specs::Rows::row_at, crate::specs::Levels::level_section_over, crate::specs::Levels::level_blocking))]
fn level_blocking(rows: &[Declared], level: u8) -> u64
    requires { AreDeclared rows.now }
    ensures blocking { result ≡ level_blocking rows.now level }
    ensures limit { result ≤ most_units }
{
    let mut greatest: u64 = 0;
    for row in 0..rows.len() {
        greatest = greatest.max(section_at(level, &rows[row]));
    }
    greatest
}

/// The work of the rows of at least this priority in so many units.
#[tactic(auto, unfolding(crate::specs::Sums::sum_below, crate::specs::Rows::row_at, crate::specs::Levels::level_work_over, crate::specs::Levels::level_work))]
fn level_work(rows: &[Declared], level: u8, units: u64) -> u64
    requires declared { AreDeclared rows.now }
    requires units { units ≤ most_units }
    ensures work { result ≡ level_work rows.now level units }
    ensures limit { result ≤ 64 * (most_units * most_units) }
{
    let mut sum: u64 = 0;
    for row in 0..rows.len() {
        sum += work_at(level, &rows[row], units);
    }
    sum
}

/// What is to be done at the level in so many units.
#[tactic(auto, unfolding(crate::specs::Levels::level_demand))]
pub(crate) fn level_demand(rows: &[Declared], level: u8, units: u64) -> u64
    requires declared { AreDeclared rows.now }
    requires units { units ≤ most_units }
    ensures { result ≡ level_demand rows.now level units }
{
    level_blocking(rows, level) + level_work(rows, level, units)
}
