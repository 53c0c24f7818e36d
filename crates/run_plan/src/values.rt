//! The values in the tables of a plan.

ghost use Rattle.std.specs.Prelude.{◌≡◌, ◌≤◌, ◌≤ℤ◌, IfSome, option_map, true};
ghost use Rattle.scj_base.specs.Lexeme.{is_name as has_form_of_a_name};
ghost use Rattle.toml.specs.Data.{get_member};
ghost use Rattle.toml.specs.View.{table_view, view};
ghost use Rattle.run_plan.specs.Limits.{least_value, greatest_value};
ghost use Rattle.run_plan.specs.Rows.{key_count};
ghost use Rattle.run_plan.specs.Values.{from_at, from_in, from_named, integer_at, integer_in, name_at, name_in, number_at, number_in, of_32_bits, within};

use declaration_steps::scope_names::is_name;
use scj_base::Name;
use scj_model::FireFrom;
use toml::{Table, Value};

/// The number, where it lies between the bounds.
fn within(number: i64, least: u64, greatest: u64) -> Option<u64>
    ensures value { result ≡ within least greatest number }
    ensures bounds { IfSome result (λ n. (least ≤ n) × (n ≤ greatest)) }
{
    if number < 0 {
        return None;
    }
    let number = number as u64;
    if least <= number && number <= greatest {
        Some(number)
    } else {
        None
    }
}

/// The number, where it has 32 bits.
fn of_32_bits(number: i64) -> Option<i32>
    ensures { result ≡ of_32_bits number }
{
    if -2147483648 <= number && number <= 2147483647 {
        Some(number as i32)
    } else {
        None
    }
}

/// The whole number between the bounds that the value is.
pub fn number_in(value: &Value, least: u64, greatest: u64) -> Option<u64>
    ensures value { result ≡ number_in least greatest (view value.now) }
    ensures bounds { IfSome result (λ n. (least ≤ n) × (n ≤ greatest)) }
{
    match value.as_integer() {
        Some(number) => within(number, least, greatest),
        None => None,
    }
}

/// The whole number of 32 bits that the value is.
fn integer_in(value: &Value) -> Option<i32>
    ensures { result ≡ integer_in (view value.now) }
{
    match value.as_integer() {
        Some(number) => of_32_bits(number),
        None => None,
    }
}

/// The name that the value is.
fn name_in(value: &Value) -> Option<Name>
    ensures value { result ≡ name_in (view value.now) }
    ensures name { IfSome result (λ name. has_form_of_a_name name ≡ true) }
{
    match value.as_str() {
        Some(text) => {
            if is_name(text.as_bytes()) {
                Some(Name::new(text.as_bytes()))
            } else {
                None
            }
        }
        None => None,
    }
}

/// From when the unit of a fire is counted, by a word.
fn from_named(word: &str) -> Option<FireFrom>
    ensures { result ≡ from_named word.now }
{
    match word {
        "start" => Some(FireFrom::Start),
        "mission" => Some(FireFrom::Mission),
        _ => None,
    }
}

/// From when the unit of a fire is counted, by the word that the value is.
fn from_in(value: &Value) -> Option<FireFrom>
    ensures { result ≡ from_in (view value.now) }
{
    match value.as_str() {
        Some(word) => from_named(word),
        None => None,
    }
}

/// The value at a key.
pub fn value_at<'a>(table: &'a Table, key: &str) -> Option<&'a Value>
    ensures { option_map (λ value. view value.now) result ≡ get_member key.now (table_view table.now) }
{
    table.get(key)
}

/// The whole number between the bounds at a key.
pub fn number_at(table: &Table, key: &str, least: u64, greatest: u64) -> Option<u64>
    ensures value { result ≡ number_at key.now least greatest (table_view table.now) }
    ensures bounds { IfSome result (λ n. (least ≤ n) × (n ≤ greatest)) }
{
    match value_at(table, key) {
        Some(value) => number_in(value, least, greatest),
        None => None,
    }
}

/// The whole number of 32 bits at a key.
pub(crate) fn integer_at(table: &Table, key: &str) -> Option<i32>
    ensures { result ≡ integer_at key.now (table_view table.now) }
{
    match value_at(table, key) {
        Some(value) => integer_in(value),
        None => None,
    }
}

/// The name at a key.
pub(crate) fn name_at(table: &Table, key: &str) -> Option<Name>
    ensures value { result ≡ name_at key.now (table_view table.now) }
    ensures name { IfSome result (λ name. has_form_of_a_name name ≡ true) }
{
    match value_at(table, key) {
        Some(value) => name_in(value),
        None => None,
    }
}

/// From when the unit of a fire is counted, by the word at a key.
pub(crate) fn from_at(table: &Table, key: &str) -> Option<FireFrom>
    ensures { result ≡ from_at key.now (table_view table.now) }
{
    match value_at(table, key) {
        Some(value) => from_in(value),
        None => None,
    }
}

/// How many keys the table has.
pub fn key_count(table: &Table) -> usize
    ensures { result ≡ key_count (table_view table.now) }
{
    table.len()
}
