//! The response of a row: the least number of units in which all that is to be done is done. Claimed ones are checked.

ghost use Rattle.std.specs.Prelude.{◌≡◌, ◌≤◌, ◌<◌, length};
ghost use Rattle.response_bounds.specs.Responses.{are_bounds, are_right_from, is_right};
ghost use Rattle.response_bounds.specs.Rows.{AreDeclared, IsDeclared, most_units, row_at};

use crate::demands::demand;
use crate::rows::Declared;

/// The response of a row.
#[derive(Clone, Copy, Debug, PartialEq, Eq)]
pub enum Response {
    /// Each release ends within so many units.
    Bound { units: u64 },
    /// No number of units up to the gap is a bound.
    NoBound,
}

fn gap_in(row: &Declared) -> u64
    requires { IsDeclared row.now }
    ensures gap { result ≡ row.now.gap }
    ensures least { 1 ≤ result }
    ensures limit { result ≤ most_units }
{
    row.gap
}

#[tactic(auto, unfolding(crate::specs::Rows::row_at))]
pub(crate) fn gap_of(rows: &[Declared], row: usize) -> u64
    requires declared { AreDeclared rows.now }
    requires row { row < length rows.now }
    ensures gap { result ≡ (row_at rows.now row).gap }
    ensures least { 1 ≤ result }
    ensures limit { result ≤ most_units }
{
    gap_in(&rows[row])
}

/// Whether what is claimed for the row holds.
#[tactic(auto, unfolding(crate::specs::Responses::is_right))]
pub fn is_right(rows: &[Declared], row: usize, claim: Response) -> bool
    requires declared { AreDeclared rows.now }
    requires row { row < length rows.now }
    ensures { result ≡ is_right rows.now row claim }
{
    match claim {
        Response::NoBound => true,
        Response::Bound { units } => {
            1 <= units && units <= gap_of(rows, row) && demand(rows, row, units) <= units
        }
    }
}

/// Whether each claim holds.
#[tactic(auto, unfolding(crate::specs::Responses::are_right_from))]
fn are_right(rows: &[Declared], claims: &[Response]) -> bool
    requires declared { AreDeclared rows.now }
    requires count { length rows.now ≡ length claims.now }
    ensures { result ≡ are_right_from rows.now 0 claims.now }
{
    let mut row: usize = 0;
    let mut rest = claims;
    while let [claim, others @ ..] = rest {
        if !is_right(rows, row, *claim) {
            return false;
        }
        row += 1;
        rest = others;
    }
    true
}

/// Whether there is one claim for each row, and each holds.
#[tactic(auto, unfolding(crate::specs::Responses::are_bounds))]
pub fn are_bounds(rows: &[Declared], claims: &[Response]) -> bool
    requires { AreDeclared rows.now }
    ensures { result ≡ are_bounds rows.now claims.now }
{
    rows.len() == claims.len() && are_right(rows, claims)
}
