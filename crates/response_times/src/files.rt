//! What a file declares.

use response_bounds::{Declared, Response};
use std::marker::Model;

/// The rows of a file, from 1 to 64. A contract sees the list of them.
#[derive(Drop)]
pub struct DeclaredRows(pub Vec<Declared>);

impl Model for DeclaredRows {
    ghost use Rattle.std.specs.Prelude.{List};
    ghost use Rattle.response_bounds.specs.declared.rows.Declared.{Declared as Row};

    ghost Value = { List Row };

    ghost view = { λ rows. rows.0.items };
}

/// What a file claims for its rows. A contract sees the list of the claims.
#[derive(Drop)]
pub struct Claims(pub Vec<Response>);

impl Model for Claims {
    ghost use Rattle.std.specs.Prelude.{List};
    ghost use Rattle.response_bounds.specs.declared.responses.Response.{Response as Claim};

    ghost Value = { List Claim };

    ghost view = { λ claims. claims.0.items };
}

/// What a file declares of handlers, and what it claims for each of them.
#[derive(Drop)]
pub struct DeclaredFile {
    /// The rows, in the order of the file.
    pub rows: DeclaredRows,
    /// The claims, one for each row.
    pub claimed: Claims,
}
