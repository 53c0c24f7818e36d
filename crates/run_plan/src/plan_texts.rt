//! The text of a plan, read.

ghost use Rattle.std.specs.Prelude.{◌≡◌, ◌≤◌, IfOk};
ghost use Rattle.toml.specs.View.{table_view, view};
ghost use Rattle.run_plan.specs.Limits.{KeepsLimits, largest_store, most_units};
ghost use Rattle.run_plan.specs.Answers.{ReportsError, ReportsMeaning, ReportsWhether};
ghost use Rattle.run_plan.specs.PlanOf.{completed, first_refusal, is_second, meaning_of, meaning_of_text, plan_with, refusal_at, suits};

use crate::answers::{PlanError, bad_key, bad_value};
use crate::plans::Plan;
use crate::rows::{fires_at, fires_in, readings_at, readings_in};
use crate::values::{number_at, number_in};
use scj_base::Memory;
use std::alloc::Global;
use toml::de::Error;
use toml::{Table, Value};

/// The most units of a run.
const MOST_UNITS: u64 = 10_000_000;

/// The most bytes of the store.
const LARGEST_STORE: u64 = 67_108_864;

/// Whether a table says that it is of version 2.
fn is_second(table: &Table) -> bool
    ensures { result ≡ is_second (table_view table.now) }
{
    number_at(table, "version", 2, 2).is_some()
}

/// Whether the value is one that the key may have, in a table that is of version 2 or isn't; none where no plan has the
/// key.
fn suits(alloc: Global, second: bool, key: &str, value: &Value) -> Result<Option<bool>, Memory>
    ensures { IfOk result (λ suited. suited ≡ suits second key.now (view value.now)) }
{
    match key {
        "version" => Ok(Some(number_in(value, 1, 2).is_some())),
        "units" => Ok(Some(number_in(value, 0, MOST_UNITS).is_some())),
        "store" => Ok(Some(number_in(value, 0, LARGEST_STORE).is_some())),
        "fire" => Ok(Some(fires_in(alloc, second, value)?.is_some())),
        "reading" => Ok(Some(readings_in(alloc, value)?.is_some())),
        _ => Ok(None),
    }
}

/// Refuses an unknown key, and a value that doesn't suit its key.
fn judge(alloc: Global, second: bool, key: &str, value: &Value) -> Result<(), PlanError>
    ensures { ReportsWhether (refusal_at key.now (suits second key.now (view value.now))) result }
{
    match suits(alloc, second, key, value)? {
        Some(true) => Ok(()),
        Some(false) => Err(bad_value(alloc, key)),
        None => Err(bad_key(alloc, key)),
    }
}

/// Refuses the first entry of the table that is wrong.
fn judge_all(alloc: Global, second: bool, table: &Table) -> Result<(), PlanError>
    ensures { ReportsWhether (first_refusal second (table_view table.now)) result }
{
    for (key, value) in table.iter() {
        judge(alloc, second, key.as_str(), value)?;
    }
    Ok(())
}

/// The plan of a table whose entries are right, or the first key that it lacks.
fn completed(alloc: Global, table: &Table) -> Result<Plan, PlanError>
    ensures meaning { ReportsMeaning (completed (table_view table.now)) result }
    ensures limits { IfOk result KeepsLimits }
{
    if number_at(table, "version", 1, 2).is_none() {
        return Err(bad_key(alloc, "version"));
    }
    let Some(units) = number_at(table, "units", 0, MOST_UNITS) else {
        return Err(bad_key(alloc, "units"));
    };
    let Some(store) = number_at(table, "store", 0, LARGEST_STORE) else {
        return Err(bad_key(alloc, "store"));
    };
    let plan = plan_with(alloc, units, store, table)?;
    Ok(plan)
}

/// The plan of these numbers, with the rows of the table.
fn plan_with(alloc: Global, units: u64, store: u64, table: &Table) -> Result<Plan, Memory>
    requires units { units ≤ most_units }
    requires store { store ≤ largest_store }
    ensures plan { IfOk result (λ plan. plan ≡ plan_with units store (table_view table.now)) }
    ensures limits { IfOk result KeepsLimits }
{
    let fires = fires_at(alloc, is_second(table), table)?;
    let readings = readings_at(alloc, table)?;
    Plan::new(alloc, units, store, fires, readings)
}

/// The plan of a table.
#[tactic(auto, unfolding(crate::specs::PlanOf::meaning_of))]
fn plan_of(alloc: Global, table: &Table) -> Result<Plan, PlanError>
    ensures meaning { ReportsMeaning (meaning_of (table_view table.now)) result }
    ensures limits { IfOk result KeepsLimits }
{
    judge_all(alloc, is_second(table), table)?;
    completed(alloc, table)
}

/// Reads the text of a plan.
///
/// # Errors
///
/// `NotToml` where the bytes aren't the UTF-8 of a TOML text. `BadKey` and `BadValue` tell the first key, by the bytes
/// of the keys, that no plan has or whose value isn't one that it may have. Where there is none, `BadKey` tells the
/// first of `version`, `units` and `store` that is missing. `Memory` may come at any text.
pub fn read_plan(alloc: Global, bytes: &[u8]) -> Result<Plan, PlanError>
    ensures meaning { ReportsMeaning (meaning_of_text bytes.now) result }
    ensures limits { IfOk result KeepsLimits }
{
    match toml::table_from_slice(alloc, bytes) {
        Ok(table) => plan_of(alloc, &table),
        Err(error) => Err(refusal(&error)),
    }
}

/// Why `toml` refuses a text.
fn refusal(error: &Error) -> PlanError
    ensures { ReportsError error.now result }
{
    if error.is_memory() {
        PlanError::Memory
    } else {
        PlanError::NotToml
    }
}
