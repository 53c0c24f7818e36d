//! A plan, printed as one of version 2.

ghost use Rattle.std.specs.Prelude.{◌≡◌, ◌≤◌, All, IfOk, IsUtf8, OnOk, string_bytes, true};
ghost use Rattle.scj_base.specs.Lexeme.{is_name as has_form_of_a_name};
ghost use Rattle.toml.specs.Data.{array};
ghost use Rattle.toml.specs.View.{array_view, table_view, view};
ghost use Rattle.run_plan.specs.Limits.{IsFire, IsReading};
ghost use Rattle.run_plan.specs.NewTable.{IsTextOf, array_of, fire_row, new_table, number, reading_row, with_member, word_of};
ghost use Rattle.run_plan.specs.PlanOf.{PlanOf, meaning_of_text, plan as is_plan};

use crate::plans::Plan;
use scj_base::{Memory, Name};
use scj_model::{Fire, FireFrom, ReadingRow};
use std::alloc::Global;
use toml::value::Array;
use toml::{Table, Value};

/// Puts one more entry into a table.
fn put(alloc: Global, table: &mut Table, key: &str, value: Value) -> Result<(), Memory>
    ensures { OnOk result (table_view table.new ≡ with_member key.now (view value) (table_view table.old)) }
{
    let name = String::from_str(alloc, key)?;
    table.insert(name, value)?;
    Ok(())
}

/// A number that isn't negative.
fn number(n: u64) -> Value
    requires { n ≤ 9223372036854775807 }
    ensures { view result ≡ number n }
{
    Value::Integer(n as i64)
}

/// The word from when the unit of a fire is counted.
fn word_of(from: FireFrom) -> &'static str
    ensures { result.now ≡ word_of from }
{
    match from {
        FireFrom::Start => "start",
        FireFrom::Mission => "mission",
    }
}

/// The text of a name.
fn text_of<'a>(name: &'a Name) -> &'a str
    requires { has_form_of_a_name name.now ≡ true }
    ensures { result.now ≡ name.now }
{
    match std::str::from_utf8(name.bytes()) {
        Ok(text) => text,
        Err(_) => unreachable!(),
    }
}

/// The row of a fire.
fn fire_row(alloc: Global, fire: &Fire) -> Result<Table, Memory>
    requires { IsFire fire.now }
    ensures { IfOk result (λ row. table_view row ≡ fire_row fire.now) }
{
    let mut row = Table::new(alloc);
    put(alloc, &mut row, "at", number(fire.at))?;
    put(
        alloc,
        &mut row,
        "from",
        Value::string(alloc, word_of(fire.from))?,
    )?;
    put(
        alloc,
        &mut row,
        "handler",
        Value::string(alloc, text_of(&fire.handler))?,
    )?;
    Ok(row)
}

/// The row of a reading.
fn reading_row(alloc: Global, reading: &ReadingRow) -> Result<Table, Memory>
    requires { IsReading reading.now }
    ensures { IfOk result (λ row. table_view row ≡ reading_row reading.now) }
{
    let mut row = Table::new(alloc);
    put(alloc, &mut row, "at", number(reading.at))?;
    put(alloc, &mut row, "port", number(u64::from(reading.port)))?;
    put(
        alloc,
        &mut row,
        "value",
        Value::Integer(i64::from(reading.value)),
    )?;
    Ok(row)
}

/// The rows of the fires.
fn fire_rows(alloc: Global, fires: &[Fire]) -> Result<Array, Memory>
    requires { All IsFire fires.now }
    ensures { IfOk result (λ rows. array (array_view rows) ≡ array_of fire_row fires.now) }
{
    let mut rows = Vec::new(alloc);
    for fire in fires {
        rows.push(Value::Table(fire_row(alloc, fire)?))?;
    }
    Ok(rows)
}

/// The rows of the readings.
fn reading_rows(alloc: Global, readings: &[ReadingRow]) -> Result<Array, Memory>
    requires { All IsReading readings.now }
    ensures { IfOk result (λ rows. array (array_view rows) ≡ array_of reading_row readings.now) }
{
    let mut rows = Vec::new(alloc);
    for reading in readings {
        rows.push(Value::Table(reading_row(alloc, reading)?))?;
    }
    Ok(rows)
}

/// The table of the plan, of version 2.
fn new_table(alloc: Global, plan: &Plan) -> Result<Table, Memory>
    ensures { IfOk result (λ table. table_view table ≡ new_table plan.now) }
{
    let fires = fire_rows(alloc, plan.fires())?;
    let readings = reading_rows(alloc, plan.readings().rows())?;
    let mut table = Table::new(alloc);
    put(alloc, &mut table, "version", number(2))?;
    put(alloc, &mut table, "units", number(plan.units()))?;
    put(alloc, &mut table, "store", number(plan.store()))?;
    put(alloc, &mut table, "reading", Value::Array(readings))?;
    put(alloc, &mut table, "fire", Value::Array(fires))?;
    Ok(table)
}

/// The bytes of a text.
fn bytes_of(text: String) -> Vec<u8>
    ensures bytes { result.items ≡ string_bytes text }
    ensures valid { IsUtf8 result.items }
{
    let _ = text.as_str();
    text.into_bytes()
}

/// Prints the plan as one of version 2, with the keys and rows in one order whatever its text was like. What is printed
/// is the same plan: it has the same units, store, fires and readings, and so each program the same run.
///
/// # Errors
///
/// `Memory` where there was none for a growth.
pub fn migrate(alloc: Global, plan: &Plan) -> Result<Vec<u8>, Memory>
    ensures table { IfOk result (λ text. IsTextOf (new_table plan.now) text.items) }
    ensures meaning { IfOk result (λ text. meaning_of_text text.items ≡ is_plan plan.now) }
{
    law_migrate(plan);
    let table = new_table(alloc, plan)?;
    match toml::table_to_string(alloc, &table) {
        Ok(text) => Ok(bytes_of(text)),
        // The other error speaks of dates, and a plan has none.
        Err(_) => Err(Memory),
    }
}

/// The law that the table which `migrate` prints is one of the plan.
pub fn law_migrate(plan: &Plan)
    ensures { PlanOf (new_table plan.now) plan.now }
{
    let _fires = plan.fires();
    let _readings = plan.readings().rows();
    let _units = plan.units();
    let _store = plan.store();
}
