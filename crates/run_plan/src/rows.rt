//! The rows of a plan: its fires and its readings.

ghost use Rattle.std.specs.Prelude.{◌≡◌, All, IfOk, IfSome, codes, length, option_and_then, option_map, vec_len};
ghost use Rattle.toml.specs.Data.{as_table};
ghost use Rattle.toml.specs.View.{items_view, table_view, view};
ghost use Rattle.run_plan.specs.Limits.{AreFires, AreReadings, IsFire, IsReading};
ghost use Rattle.run_plan.specs.PlanOf.{rows_at};
ghost use Rattle.run_plan.specs.Rows.{each_row, few_rows, fire_of, first_fire_of, reading_of, rows_in, second_fire_of};

use crate::values::{from_at, integer_at, key_count, name_at, number_at, value_at};
use scj_base::Memory;
use scj_model::{Fire, FireFrom, ReadingRow};
use std::alloc::Global;
use toml::{Table, Value};

/// The most rows of fires, and of readings.
const MOST_ROWS: usize = 10_000;

/// The last unit of a run of the most units.
const LAST_UNIT: u64 = 9_999_999;

/// The last port of the device.
const LAST_PORT: u64 = 255;

/// The fire that a table of version 1 is.
fn first_fire_of(row: &Table) -> Option<Fire>
    ensures value { result ≡ first_fire_of (table_view row.now) }
    ensures limits { IfSome result IsFire }
{
    if key_count(row) != 2 {
        return None;
    }
    let at = number_at(row, "at", 0, LAST_UNIT)?;
    let handler = name_at(row, "handler")?;
    let from = FireFrom::Start;
    Some(Fire { at, handler, from })
}

/// The fire that a table of version 2 is.
fn second_fire_of(row: &Table) -> Option<Fire>
    ensures value { result ≡ second_fire_of (table_view row.now) }
    ensures limits { IfSome result IsFire }
{
    if key_count(row) != 3 {
        return None;
    }
    let at = number_at(row, "at", 0, LAST_UNIT)?;
    let handler = name_at(row, "handler")?;
    let from = from_at(row, "from")?;
    Some(Fire { at, handler, from })
}

/// The fire that a table is, of version 2 or of version 1.
fn fire_of(second: bool, row: &Table) -> Option<Fire>
    ensures value { result ≡ fire_of second (table_view row.now) }
    ensures limits { IfSome result IsFire }
{
    if second {
        second_fire_of(row)
    } else {
        first_fire_of(row)
    }
}

/// The reading that a table is.
fn reading_of(row: &Table) -> Option<ReadingRow>
    ensures value { result ≡ reading_of (table_view row.now) }
    ensures limits { IfSome result IsReading }
{
    if key_count(row) != 3 {
        return None;
    }
    let port = number_at(row, "port", 0, LAST_PORT)? as u8;
    let at = number_at(row, "at", 0, LAST_UNIT)?;
    let value = integer_at(row, "value")?;
    Some(ReadingRow { port, at, value })
}

/// The fire that a value is.
fn fire_in(second: bool, value: &Value) -> Option<Fire>
    ensures value { result ≡ option_and_then (fire_of second) (as_table (view value.now)) }
    ensures limits { IfSome result IsFire }
{
    match value.as_table() {
        Some(row) => fire_of(second, row),
        None => None,
    }
}

/// The reading that a value is.
fn reading_in(value: &Value) -> Option<ReadingRow>
    ensures value { result ≡ option_and_then reading_of (as_table (view value.now)) }
    ensures limits { IfSome result IsReading }
{
    match value.as_table() {
        Some(row) => reading_of(row),
        None => None,
    }
}

/// A fire for each value, where each is one.
fn each_fire(alloc: Global, second: bool, values: &[Value]) -> Result<Option<Vec<Fire>>, Memory>
    ensures value { IfOk result (λ o. option_map (λ v. v.items) o ≡ each_row (fire_of second) (items_view values.now)) }
    ensures count { IfOk result (λ o. IfSome o (λ v. vec_len v ≡ length values.now)) }
    ensures limits { IfOk result (λ o. IfSome o (λ v. All IsFire v.items)) }
{
    let mut fires = Vec::new(alloc);
    for value in values {
        match fire_in(second, value) {
            Some(fire) => fires.push(fire)?,
            None => return Ok(None),
        }
    }
    Ok(Some(fires))
}

/// A reading for each value, where each is one.
fn each_reading(alloc: Global, values: &[Value]) -> Result<Option<Vec<ReadingRow>>, Memory>
    ensures value { IfOk result (λ o. option_map (λ v. v.items) o ≡ each_row reading_of (items_view values.now)) }
    ensures count { IfOk result (λ o. IfSome o (λ v. vec_len v ≡ length values.now)) }
    ensures limits { IfOk result (λ o. IfSome o (λ v. All IsReading v.items)) }
{
    let mut readings = Vec::new(alloc);
    for value in values {
        match reading_in(value) {
            Some(reading) => readings.push(reading)?,
            None => return Ok(None),
        }
    }
    Ok(Some(readings))
}

/// The fires that an array of few values is.
#[tactic(auto, using(crate::proofs::Tables::counts))]
fn few_fires(alloc: Global, second: bool, values: &[Value]) -> Result<Option<Vec<Fire>>, Memory>
    ensures value { IfOk result (λ o. option_map (λ v. v.items) o ≡ few_rows (fire_of second) (items_view values.now)) }
    ensures limits { IfOk result (λ o. IfSome o (λ v. AreFires v.items)) }
{
    if values.len() > MOST_ROWS {
        return Ok(None);
    }
    each_fire(alloc, second, values)
}

/// The readings that an array of few values is.
#[tactic(auto, using(crate::proofs::Tables::counts))]
fn few_readings(alloc: Global, values: &[Value]) -> Result<Option<Vec<ReadingRow>>, Memory>
    ensures value { IfOk result (λ o. option_map (λ v. v.items) o ≡ few_rows reading_of (items_view values.now)) }
    ensures limits { IfOk result (λ o. IfSome o (λ v. AreReadings v.items)) }
{
    if values.len() > MOST_ROWS {
        return Ok(None);
    }
    each_reading(alloc, values)
}

/// The fires that a value is, in a table of version 2 or of version 1.
pub(crate) fn fires_in(
    alloc: Global,
    second: bool,
    value: &Value,
) -> Result<Option<Vec<Fire>>, Memory>
    ensures value { IfOk result (λ o. option_map (λ v. v.items) o ≡ rows_in (fire_of second) (view value.now)) }
    ensures limits { IfOk result (λ o. IfSome o (λ v. AreFires v.items)) }
{
    match value.as_array() {
        Some(values) => few_fires(alloc, second, values.as_slice()),
        None => Ok(None),
    }
}

/// The readings that a value is.
pub(crate) fn readings_in(alloc: Global, value: &Value) -> Result<Option<Vec<ReadingRow>>, Memory>
    ensures value { IfOk result (λ o. option_map (λ v. v.items) o ≡ rows_in reading_of (view value.now)) }
    ensures limits { IfOk result (λ o. IfSome o (λ v. AreReadings v.items)) }
{
    match value.as_array() {
        Some(values) => few_readings(alloc, values.as_slice()),
        None => Ok(None),
    }
}

/// The fires of a table of a plan, of version 2 or of version 1.
pub(crate) fn fires_at(alloc: Global, second: bool, table: &Table) -> Result<Vec<Fire>, Memory>
    ensures value { IfOk result (λ v. v.items ≡ rows_at (fire_of second) (codes "fire") (table_view table.now)) }
    ensures limits { IfOk result (λ v. AreFires v.items) }
{
    let Some(value) = value_at(table, "fire") else {
        return Ok(Vec::new(alloc));
    };
    match fires_in(alloc, second, value)? {
        Some(fires) => Ok(fires),
        None => Ok(Vec::new(alloc)),
    }
}

/// The readings of a table of a plan.
pub(crate) fn readings_at(alloc: Global, table: &Table) -> Result<Vec<ReadingRow>, Memory>
    ensures value { IfOk result (λ v. v.items ≡ rows_at reading_of (codes "reading") (table_view table.now)) }
    ensures limits { IfOk result (λ v. AreReadings v.items) }
{
    let Some(value) = value_at(table, "reading") else {
        return Ok(Vec::new(alloc));
    };
    match readings_in(alloc, value)? {
        Some(readings) => Ok(readings),
        None => Ok(Vec::new(alloc)),
    }
}
