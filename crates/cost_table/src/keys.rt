//! What stands at the keys of a table.

ghost use Rattle.std.specs.Prelude.{◌≡◌, ◌<◌, ◌≤◌, ◌^◌, length, map, Some, slice_get, IfSome, IfNone};
ghost use Rattle.std.specs.Option.{option_map, option_copied};
ghost use Rattle.std.specs.List.{list_all};
ghost use Rattle.toml.specs.View.{table_view, view};
ghost use Rattle.cost_table.specs.Documents.{text_at, number_at, number_or, entries_at, is_table, tables_of};

use toml::{Table, Value};

// The text at a key.
pub fn text_at<'a>(table: &'a Table, key: &str) -> Option<&'a str>
    ensures { option_copied result ≡ text_at key.now (table_view table.now) }
{
    match table.get(key) {
        Some(value) => value.as_str(),
        None => None,
    }
}

// The whole number at a key.
pub fn number_at(table: &Table, key: &str) -> Option<i64>
    ensures { result ≡ number_at key.now (table_view table.now) }
{
    match table.get(key) {
        Some(value) => value.as_integer(),
        None => None,
    }
}

// The whole number at a key, or this one where there is no such key.
pub fn number_or(table: &Table, key: &str, absent: i64) -> Option<i64>
    ensures { result ≡ number_or absent key.now (table_view table.now) }
{
    match table.get(key) {
        Some(value) => value.as_integer(),
        None => Some(absent),
    }
}

// The tables that an array at a key holds, and none where there is no such key.
pub fn entries_at<'a>(table: &'a Table, key: &str) -> Option<&'a [Value]>
    ensures { option_map (λ values. map view values.now) result ≡ entries_at key.now (table_view table.now) }
{
    match table.get(key) {
        Some(value) => tables_of(value),
        None => Some(&[]),
    }
}

// How many entries there are, where 32 bits number them.
pub fn entry_count(values: &[Value]) -> Option<u32>
    ensures count { IfSome result (λ count. count ≡ length values.now) }
    ensures past { IfNone result (2 ^ 32 ≤ length values.now) }
{
    u32::try_from(values.len()).ok()
}

// The members of an array of tables.
fn tables_of(value: &Value) -> Option<&[Value]>
    ensures { option_map (λ values. map view values.now) result ≡ tables_of (view value.now) }
{
    let values = value.as_array()?;
    if are_tables(values.as_slice()) {
        Some(values.as_slice())
    } else {
        None
    }
}

// Each value is a table.
fn are_tables(values: &[Value]) -> bool
    ensures { result ≡ list_all (λ value. is_table (view value)) values.now }
{
    values.iter().all(|value| value.is_table())
}

// The value of this number.
#[tactic(auto, using(crate::proofs::Seen::seen_at))]
pub fn nth(values: &[Value], place: u32) -> &Value
    requires { place < length values.now }
    ensures { slice_get (map view values.now) place ≡ Some (view result.now) }
{
    &values[place as usize]
}
