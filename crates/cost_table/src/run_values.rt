//! The numbers of a values file.

ghost use Rattle.std.specs.Prelude.{◌≡◌, ◌≢◌, length, map, codes, IfOk, IfErr, string_bytes};
ghost use Rattle.std.specs.Option.{option_map, option_and_then};
ghost use Rattle.std.specs.List.{list_all};
ghost use Rattle.std.specs.BTreeMap.{keys};
ghost use Rattle.toml.specs.Data.{get_member};
ghost use Rattle.toml.specs.View.{table_view, view};
ghost use Rattle.cost_table.specs.declared.fault.TableFault.TheVariants.{Memory};
ghost use Rattle.cost_table.specs.RunValues.{MeansValues, RefusesValues, is_value_top, numbers_in, numbers_of};
ghost use Rattle.cost_table.specs.RunValues.{told_values};

use crate::document::document;
use crate::fault::TableFault;
use alf_check::InputRow;
use std::alloc::{AllocError, Global};
use toml::{Table, Value};

/// The numbers of a values file: those of `values`, in order, one for each row of inputs.
///
/// Nothing else may stand at the top. A number outside the range of its row is no fault of the file.
///
/// Takes time linear in the file.
pub fn values(alloc: Global, bytes: &[u8], rows: &[InputRow]) -> Result<Vec<i64>, TableFault>
    ensures means { IfOk result (λ numbers. MeansValues bytes.now (length rows.now) numbers.items) }
    ensures refused { IfErr result (λ fault. fault ≢ Memory → RefusesValues bytes.now (length rows.now) fault) }
{
    let table = match document(alloc, bytes) {
        Ok(table) => table,
        Err(fault) => return Err(fault),
    };
    let Ok(told) = told(alloc, &table) else {
        return Err(TableFault::Memory);
    };
    let Some(numbers) = told else {
        return Err(TableFault::Key(None));
    };
    if numbers.len() != rows.len() {
        return Err(TableFault::Key(None));
    }
    Ok(numbers)
}

// The numbers, if only `values` stands at the top, with an array of whole numbers.
#[tactic(auto, using(crate::proofs::Seen::only_keys_all))]
fn told(alloc: Global, table: &Table) -> Result<Option<Vec<i64>>, AllocError>
    ensures { IfOk result (λ told. option_map (λ numbers. numbers.items) told ≡ told_values (table_view table.now)) }
{
    if has_value_top(table) {
        numbers_at(alloc, table)
    } else {
        Ok(None)
    }
}

// The whole numbers of the array at `values`.
fn numbers_at(alloc: Global, table: &Table) -> Result<Option<Vec<i64>>, AllocError>
    ensures { IfOk result
        (λ told. option_map (λ numbers. numbers.items) told
        ≡ option_and_then numbers_in (get_member (codes "values") (table_view table.now))) }
{
    match table.get("values") {
        Some(value) => numbers_in(alloc, value),
        None => Ok(None),
    }
}

// Each key at the top is the one that may stand there.
fn has_value_top(table: &Table) -> bool
    ensures { result ≡ list_all (λ key. is_value_top (string_bytes key)) (keys table.now) }
{
    table.keys().all(|key| is_value_top(key.as_str()))
}

// The key is the one that may stand at the top.
fn is_value_top(key: &str) -> bool
    ensures { result ≡ is_value_top key.now }
{
    key == "values"
}

// The whole numbers of an array.
fn numbers_in(alloc: Global, value: &Value) -> Result<Option<Vec<i64>>, AllocError>
    ensures { IfOk result (λ told. option_map (λ numbers. numbers.items) told ≡ numbers_in (view value.now)) }
{
    match value.as_array() {
        Some(values) => numbers_of(alloc, values.as_slice()),
        None => Ok(None),
    }
}

// The whole numbers, if all are.
fn numbers_of(alloc: Global, values: &[Value]) -> Result<Option<Vec<i64>>, AllocError>
    ensures { IfOk result (λ told. option_map (λ numbers. numbers.items) told ≡ numbers_of (map view values.now)) }
{
    let mut numbers = Vec::new(alloc);
    let mut rest = values;
    while let Some((value, others)) = rest.split_first() {
        let Some(number) = value.as_integer() else {
            return Ok(None);
        };
        numbers.push(number)?;
        rest = others;
    }
    Ok(Some(numbers))
}
