//! One entry of a costs file, and what stands beside the entries.

ghost use Rattle.std.specs.Prelude.{◌≡◌, ℕ, pos, string_bytes};
ghost use lib.Signed.{◌≤ℤ◌};
ghost use Rattle.std.specs.Option.{option_map};
ghost use Rattle.std.specs.List.{list_all};
ghost use Rattle.std.specs.BTreeMap.{keys};
ghost use Rattle.toml.specs.View.{table_view, view};
ghost use Rattle.cost_table.specs.Costs.{is_cost_key, is_cost_top, cost_entry, cost_members, cost_of, below};
ghost use Rattle.cost_table.specs.Costs.{default_cost};

use crate::keys::{number_at, number_or, text_at};
use toml::{Table, Value};

/// What an entry says of a block of its function: the number of the block, and its cost.
#[derive(Clone, Copy)]
pub struct BlockCost {
    pub block: i64,
    pub cost: i64,
}

// The key is one of an entry of costs.
fn is_cost_key(key: &str) -> bool
    ensures { result ≡ is_cost_key key.now }
{
    key == "function" || key == "block" || key == "cost"
}

// Each key is one of an entry of costs.
fn has_cost_keys(table: &Table) -> bool
    ensures { result ≡ list_all (λ key. is_cost_key (string_bytes key)) (keys table.now) }
{
    table.keys().all(|key| is_cost_key(key.as_str()))
}

// The key is one that may stand at the top.
fn is_cost_top(key: &str) -> bool
    ensures { result ≡ is_cost_top key.now }
{
    key == "default" || key == "cost"
}

// Each key at the top is one that may stand there.
pub fn has_cost_top(table: &Table) -> bool
    ensures { result ≡ list_all (λ key. is_cost_top (string_bytes key)) (keys table.now) }
{
    table.keys().all(|key| is_cost_top(key.as_str()))
}

// The function's name, the block and the cost of an entry that has its keys.
pub fn cost_entry(value: &Value) -> Option<(&str, BlockCost)>
    ensures { option_map (λ entry. (entry.0.now, entry.1)) result ≡ cost_entry (view value.now) }
{
    match value.as_table() {
        Some(table) => cost_members(table),
        None => None,
    }
}

// The same of its table.
#[tactic(auto, using(crate::proofs::Seen::only_keys_all))]
fn cost_members(table: &Table) -> Option<(&str, BlockCost)>
    ensures { option_map (λ entry. (entry.0.now, entry.1)) result ≡ cost_members (table_view table.now) }
{
    if !has_cost_keys(table) {
        return None;
    }
    let function = text_at(table, "function")?;
    let block = number_at(table, "block")?;
    let cost = number_at(table, "cost")?;
    Some((function, BlockCost { block, cost }))
}

// The number, if it is from 0 to below a bound.
pub fn below(number: i64, bound: i64) -> Option<u32>
    requires { bound ≤ℤ pos 4294967296 }
    ensures { (n : ℕ) → bound ≡ pos n → result ≡ below n number }
{
    if number < 0 || number >= bound {
        return None;
    }
    Some(number as u32)
}

// The number as a cost, if it is one.
pub fn cost_of(number: i64) -> Option<u32>
    ensures { result ≡ cost_of number }
{
    below(number, 4294967296)
}

// The cost of a block of which no entry speaks, if it is one.
pub fn default_cost(table: &Table) -> Option<u32>
    ensures { result ≡ default_cost (table_view table.now) }
{
    match number_or(table, "default", 1) {
        Some(number) => cost_of(number),
        None => None,
    }
}
