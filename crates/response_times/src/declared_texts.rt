//! The text of a file that declares rows, read.

ghost use Rattle.std.specs.Prelude.{◌≡◌, ◌≤◌, All, IfOk, length};
ghost use Rattle.toml.specs.View.{table_view, view};
ghost use Rattle.run_plan.specs.PlanOf.{refusal_at};
ghost use Rattle.response_bounds.specs.Rows.{AreDeclared, most_rows};
ghost use Rattle.response_times.specs.Answers.{ReportsDeclared, ReportsError, ReportsWhether};
ghost use Rattle.response_times.specs.DeclaredOf.{IsHandler, claims_of, completed, declared_of, declared_of_text, first_refusal, rows_of, suits};

use crate::answers::{DeclaredError, bad_key, bad_value};
use crate::files::{Claims, DeclaredFile, DeclaredRows};
use crate::handlers::{HandlerClaim, handlers_at, handlers_in};
use response_bounds::{Declared, Response};
use run_plan::values::{number_at, number_in};
use scj_base::Memory;
use std::alloc::Global;
use toml::de::Error;
use toml::{Table, Value};

/// Whether the value is one that the key may have; none where no file has the key.
fn suits(alloc: Global, key: &str, value: &Value) -> Result<Option<bool>, Memory>
    ensures { IfOk result (λ suited. suited ≡ suits key.now (view value.now)) }
{
    match key {
        "version" => Ok(Some(number_in(value, 1, 1).is_some())),
        "handler" => Ok(Some(handlers_in(alloc, value)?.is_some())),
        _ => Ok(None),
    }
}

/// Refuses an unknown key, and a value that doesn't suit its key.
fn judge(alloc: Global, key: &str, value: &Value) -> Result<(), DeclaredError>
    ensures { ReportsWhether (refusal_at key.now (suits key.now (view value.now))) result }
{
    match suits(alloc, key, value)? {
        Some(true) => Ok(()),
        Some(false) => Err(bad_value(alloc, key)),
        None => Err(bad_key(alloc, key)),
    }
}

/// Refuses the first entry of the table that is wrong.
fn judge_all(alloc: Global, table: &Table) -> Result<(), DeclaredError>
    ensures { ReportsWhether (first_refusal (table_view table.now)) result }
{
    for (key, value) in table.iter() {
        judge(alloc, key.as_str(), value)?;
    }
    Ok(())
}

/// The rows of the handlers.
fn rows_of(alloc: Global, handlers: &[HandlerClaim]) -> Result<Vec<Declared>, Memory>
    ensures rows { IfOk result (λ rows. rows.items ≡ rows_of handlers.now) }
{
    let mut rows = Vec::new(alloc);
    for handler in handlers {
        rows.push(handler.row)?;
    }
    Ok(rows)
}

/// The claims for the handlers.
fn claims_of(alloc: Global, handlers: &[HandlerClaim]) -> Result<Vec<Response>, Memory>
    ensures claims { IfOk result (λ claims. claims.items ≡ claims_of handlers.now) }
{
    let mut claims = Vec::new(alloc);
    for handler in handlers {
        claims.push(handler.claim)?;
    }
    Ok(claims)
}

/// What the handlers are as a file.
fn file_of(alloc: Global, handlers: &[HandlerClaim]) -> Result<DeclaredFile, Memory>
    requires some { 1 ≤ length handlers.now }
    requires few { length handlers.now ≤ most_rows }
    requires limits { All IsHandler handlers.now }
    ensures rows { IfOk result (λ file. file.rows ≡ rows_of handlers.now) }
    ensures claims { IfOk result (λ file. file.claimed ≡ claims_of handlers.now) }
    ensures declared { IfOk result (λ file. AreDeclared file.rows) }
    ensures count { IfOk result (λ file. length file.claimed ≡ length file.rows) }
{
    let rows = rows_of(alloc, handlers)?;
    let claims = claims_of(alloc, handlers)?;
    Ok(DeclaredFile {
        rows: DeclaredRows(rows),
        claimed: Claims(claims),
    })
}

/// What a table declares whose entries are right, or the first key that it lacks.
fn completed(alloc: Global, table: &Table) -> Result<DeclaredFile, DeclaredError>
    ensures meaning { ReportsDeclared (completed (table_view table.now)) result }
    ensures declared { IfOk result (λ file. AreDeclared file.rows) }
    ensures count { IfOk result (λ file. length file.claimed ≡ length file.rows) }
{
    if number_at(table, "version", 1, 1).is_none() {
        return Err(bad_key(alloc, "version"));
    }
    let Some(handlers) = handlers_at(alloc, table)? else {
        return Err(bad_key(alloc, "handler"));
    };
    let file = file_of(alloc, handlers.as_slice())?;
    Ok(file)
}

/// What a table declares.
#[tactic(auto, unfolding(crate::specs::DeclaredOf::declared_of))]
fn declared_of(alloc: Global, table: &Table) -> Result<DeclaredFile, DeclaredError>
    ensures meaning { ReportsDeclared (declared_of (table_view table.now)) result }
    ensures declared { IfOk result (λ file. AreDeclared file.rows) }
    ensures count { IfOk result (λ file. length file.claimed ≡ length file.rows) }
{
    judge_all(alloc, table)?;
    completed(alloc, table)
}

/// Reads the text of a file that declares rows.
///
/// # Errors
///
/// `NotToml` where the bytes aren't the UTF-8 of a TOML text. `BadKey` and `BadValue` give the first key, by the bytes
/// of the keys, that no such file has or whose value isn't one that it may have. Where there is none, `BadKey` gives
/// the first of `version` and `handler` that is missing. `Memory` may come at any text.
pub fn read_declared(alloc: Global, bytes: &[u8]) -> Result<DeclaredFile, DeclaredError>
    ensures meaning { ReportsDeclared (declared_of_text bytes.now) result }
    ensures declared { IfOk result (λ file. AreDeclared file.rows) }
    ensures count { IfOk result (λ file. length file.claimed ≡ length file.rows) }
{
    match toml::table_from_slice(alloc, bytes) {
        Ok(table) => declared_of(alloc, &table),
        Err(error) => Err(refusal(&error)),
    }
}

/// Why `toml` refuses a text.
fn refusal(error: &Error) -> DeclaredError
    ensures { ReportsError error.now result }
{
    if error.is_memory() {
        DeclaredError::Memory
    } else {
        DeclaredError::NotToml
    }
}
