//! The lines that tell responses.

ghost use Rattle.std.specs.Prelude.{◌≡◌, ◌<◌, true, length, string_bytes, IfOk};
ghost use Rattle.response_bounds.specs.Responses.{are_bounds, are_right_from, is_right};
ghost use Rattle.response_bounds.specs.Rows.{AreDeclared};
ghost use Rattle.response_times.specs.Lines.{lines_from, response_line, response_lines};

use response_bounds::demands::{blocking, cost_of, other_work};
use response_bounds::{Declared, Response};
use std::alloc::{AllocError, Global};

/// The line of a row.
fn response_line(
    alloc: Global,
    rows: &[Declared],
    row: usize,
    response: Response,
) -> Result<String, AllocError>
    requires declared { AreDeclared rows.now }
    requires row { row < length rows.now }
    requires right { is_right rows.now row response ≡ true }
    ensures { IfOk result (λ line. string_bytes line ≡ response_line rows.now row response) }
{
    let number = row + 1;
    match response {
        Response::NoBound => format!(in alloc; "{number} none\n"),
        Response::Bound { units } => {
            let block = blocking(rows, row);
            let own = cost_of(rows, row);
            let other = other_work(rows, row, units);
            format!(in alloc; "{number} bound {units} block {block} own {own} other {other}\n")
        }
    }
}

/// The lines of all rows, where each response is right.
#[tactic(auto, unfolding(crate::specs::Lines::lines_from))]
fn lines(alloc: Global, rows: &[Declared], responses: &[Response]) -> Result<String, AllocError>
    requires declared { AreDeclared rows.now }
    requires count { length rows.now ≡ length responses.now }
    requires right { are_right_from rows.now 0 responses.now ≡ true }
    ensures { IfOk result (λ text. string_bytes text ≡ lines_from rows.now 0 responses.now) }
{
    let mut text = String::new(alloc);
    let mut row: usize = 0;
    for response in responses {
        let line = response_line(alloc, rows, row, *response)?;
        text.push_str(&line)?;
        row += 1;
    }
    Ok(text)
}

/// The lines of all rows: `K bound X block B own C other O` for a bound, which is the sum of what blocks, the own cost
/// and the work of others, and else `K none`.
#[tactic(auto, unfolding(crate::specs::Lines::response_lines, response_bounds::specs::Responses::are_bounds))]
pub fn response_text(
    alloc: Global,
    rows: &[Declared],
    responses: &[Response],
) -> Result<String, AllocError>
    requires declared { AreDeclared rows.now }
    requires right { are_bounds rows.now responses.now ≡ true }
    ensures { IfOk result (λ text. string_bytes text ≡ response_lines rows.now responses.now) }
{
    lines(alloc, rows, responses)
}
