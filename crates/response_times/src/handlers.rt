//! The tables of a file: a row for each handler, and what is claimed for it.

ghost use Rattle.std.specs.Prelude.{◌≡◌, ◌≤◌, All, IfOk, IfSome, codes, is_some, length, option_and_then, option_map, vec_len};
ghost use Rattle.toml.specs.Data.{as_table, get_member};
ghost use Rattle.toml.specs.View.{items_view, table_view, view};
ghost use Rattle.run_plan.specs.Rows.{each_row};
ghost use Rattle.response_bounds.specs.Rows.{IsDeclared, most_rows};
ghost use Rattle.response_times.specs.DeclaredOf.{IsHandler, claim_in, claim_of, few_handlers, handler_of, handlers_in, keys_of, row_in};

use response_bounds::{Declared, Response};
use run_plan::values::{key_count, number_at, number_in, value_at};
use scj_base::Memory;
use std::alloc::Global;
use toml::{Table, Value};

/// The most rows.
const MOST_ROWS: usize = 64;

/// The most units of a cost, a gap and a claim.
const MOST_UNITS: u64 = 10_000_000;

/// The highest priority.
const HIGHEST_PRIORITY: u64 = 28;

/// What is declared of a handler, and what is claimed for it.
#[derive(Clone, Copy, Debug, PartialEq, Eq)]
pub struct HandlerClaim {
    /// The row.
    pub row: Declared,
    /// The claim.
    pub claim: Response,
}

/// The row that a table has.
#[tactic(auto, unfolding(crate::specs::DeclaredOf::row_in))]
fn row_in(table: &Table) -> Option<Declared>
    ensures value { result ≡ row_in (table_view table.now) }
    ensures limits { IfSome result IsDeclared }
{
    let priority = number_at(table, "priority", 1, HIGHEST_PRIORITY)?;
    let cost = number_at(table, "cost", 1, MOST_UNITS)?;
    let gap = number_at(table, "gap", 1, MOST_UNITS)?;
    let section = number_at(table, "section", 0, cost)?;
    let ceiling = number_at(table, "ceiling", priority, HIGHEST_PRIORITY)?;
    Some(Declared {
        priority: priority as u8,
        cost,
        gap,
        section,
        ceiling: ceiling as u8,
    })
}

/// The claim of a bound.
fn claim_of(bound: u64) -> Response
    ensures { result ≡ claim_of bound }
{
    if bound == 0 {
        Response::NoBound
    } else {
        Response::Bound { units: bound }
    }
}

/// The claim that a table has.
#[tactic(auto, unfolding(crate::specs::DeclaredOf::claim_in))]
fn claim_in(table: &Table) -> Option<Response>
    ensures { result ≡ claim_in (table_view table.now) }
{
    let Some(value) = value_at(table, "bound") else {
        return Some(Response::NoBound);
    };
    match number_in(value, 0, MOST_UNITS) {
        Some(bound) => Some(claim_of(bound)),
        None => None,
    }
}

/// How many keys a table of a handler has.
fn keys_of(table: &Table) -> usize
    ensures { result ≡ keys_of (table_view table.now) }
{
    if value_at(table, "bound").is_some() {
        6
    } else {
        5
    }
}

/// The handler that a table is.
#[tactic(auto, unfolding(crate::specs::DeclaredOf::handler_of))]
fn handler_of(table: &Table) -> Option<HandlerClaim>
    ensures value { result ≡ handler_of (table_view table.now) }
    ensures limits { IfSome result IsHandler }
{
    if key_count(table) != keys_of(table) {
        return None;
    }
    let row = row_in(table)?;
    let claim = claim_in(table)?;
    Some(HandlerClaim { row, claim })
}

/// The handler that a value is.
fn handler_in(value: &Value) -> Option<HandlerClaim>
    ensures value { result ≡ option_and_then handler_of (as_table (view value.now)) }
    ensures limits { IfSome result IsHandler }
{
    match value.as_table() {
        Some(table) => handler_of(table),
        None => None,
    }
}

/// A handler for each value, where each is one.
fn each_handler(alloc: Global, values: &[Value]) -> Result<Option<Vec<HandlerClaim>>, Memory>
    ensures value { IfOk result (λ o. option_map (λ v. v.items) o ≡ each_row handler_of (items_view values.now)) }
    ensures count { IfOk result (λ o. IfSome o (λ v. vec_len v ≡ length values.now)) }
    ensures limits { IfOk result (λ o. IfSome o (λ v. All IsHandler v.items)) }
{
    let mut handlers = Vec::new(alloc);
    for value in values {
        match handler_in(value) {
            Some(handler) => handlers.push(handler)?,
            None => return Ok(None),
        }
    }
    Ok(Some(handlers))
}

/// The handlers that an array of few values is.
#[tactic(auto, using(run_plan::proofs::Tables::counts))]
fn few_handlers(alloc: Global, values: &[Value]) -> Result<Option<Vec<HandlerClaim>>, Memory>
    ensures value { IfOk result (λ o. option_map (λ v. v.items) o ≡ few_handlers (items_view values.now)) }
    ensures some { IfOk result (λ o. IfSome o (λ v. 1 ≤ vec_len v)) }
    ensures few { IfOk result (λ o. IfSome o (λ v. vec_len v ≤ most_rows)) }
    ensures limits { IfOk result (λ o. IfSome o (λ v. All IsHandler v.items)) }
{
    if values.is_empty() || values.len() > MOST_ROWS {
        return Ok(None);
    }
    each_handler(alloc, values)
}

/// The handlers that a value is.
pub(crate) fn handlers_in(alloc: Global, value: &Value) -> Result<Option<Vec<HandlerClaim>>, Memory>
    ensures value { IfOk result (λ o. option_map (λ v. v.items) o ≡ handlers_in (view value.now)) }
    ensures some { IfOk result (λ o. IfSome o (λ v. 1 ≤ vec_len v)) }
    ensures few { IfOk result (λ o. IfSome o (λ v. vec_len v ≤ most_rows)) }
    ensures limits { IfOk result (λ o. IfSome o (λ v. All IsHandler v.items)) }
{
    match value.as_array() {
        Some(values) => few_handlers(alloc, values.as_slice()),
        None => Ok(None),
    }
}

/// The handlers of a table of a file.
pub(crate) fn handlers_at(alloc: Global, table: &Table) -> Result<Option<Vec<HandlerClaim>>, Memory>
    ensures value { IfOk result
        (λ o. option_map (λ v. v.items) o
        ≡ option_and_then handlers_in (get_member (codes "handler") (table_view table.now))) }
    ensures some { IfOk result (λ o. IfSome o (λ v. 1 ≤ vec_len v)) }
    ensures few { IfOk result (λ o. IfSome o (λ v. vec_len v ≤ most_rows)) }
    ensures limits { IfOk result (λ o. IfSome o (λ v. All IsHandler v.items)) }
{
    match value_at(table, "handler") {
        Some(value) => handlers_in(alloc, value),
        None => Ok(None),
    }
}
