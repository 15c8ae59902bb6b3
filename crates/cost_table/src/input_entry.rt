//! One entry of an inputs file.

ghost use Rattle.std.specs.Prelude.{◌≡◌, ◌≢◌, ◌^◌, ◌-◌, ◌↔◌, ℕ, true, pos, IfSome, IfNone, IsTrue};
ghost use lib.Signed.{◌≤ℤ◌};
ghost use Rattle.std.specs.Option.{option_map};
ghost use Rattle.std.specs.List.{list_all};
ghost use Rattle.std.specs.Prelude.{string_bytes};
ghost use Rattle.alf_faults.specs.Sizes.{is_export_size};
ghost use Rattle.toml.specs.View.{table_view, view};
ghost use Rattle.std.specs.BTreeMap.{keys};
ghost use Rattle.cost_table.specs.Inputs.{is_input_key, is_input_top, input_entry, input_members, HasRange, IsInRange};
ghost use Rattle.cost_table.specs.Inputs.{IsRun};

use crate::keys::{number_at, number_or, text_at};
use toml::{Table, Value};

/// What an entry says of its cells: where the first begins, the bits of each, the least and the
/// greatest number of each, and how many there are.
#[derive(Clone, Copy)]
pub struct Cells {
    pub offset: i64,
    pub size: i64,
    pub low: i64,
    pub high: i64,
    pub count: i64,
}

/// The bits of a cell, and how many there are one after the other.
#[derive(Clone, Copy)]
pub struct Run {
    pub bits: u32,
    pub count: u32,
}

// The size of a cell: how many bits, how many words it can hold, and half of them.
#[derive(Clone, Copy)]
struct Width {
    bits: u32,
    words: i128,
    half: i128,
}

// The key is one of an entry of inputs.
fn is_input_key(key: &str) -> bool
    ensures { result ≡ is_input_key key.now }
{
    key == "frame"
        || key == "offset"
        || key == "size"
        || key == "low"
        || key == "high"
        || key == "count"
}

// Each key is one of an entry of inputs.
fn has_input_keys(table: &Table) -> bool
    ensures { result ≡ list_all (λ key. is_input_key (string_bytes key)) (keys table.now) }
{
    table.keys().all(|key| is_input_key(key.as_str()))
}

// The key is the one that may stand at the top.
fn is_input_top(key: &str) -> bool
    ensures { result ≡ is_input_top key.now }
{
    key == "input"
}

// Each key at the top is the one that may stand there.
pub fn has_input_top(table: &Table) -> bool
    ensures { result ≡ list_all (λ key. is_input_top (string_bytes key)) (keys table.now) }
{
    table.keys().all(|key| is_input_top(key.as_str()))
}

// The frame's name and the cells of an entry that has its keys.
pub fn input_entry(value: &Value) -> Option<(&str, Cells)>
    ensures { option_map (λ entry. (entry.0.now, entry.1)) result ≡ input_entry (view value.now) }
{
    match value.as_table() {
        Some(table) => input_members(table),
        None => None,
    }
}

// The same of its table.
#[tactic(auto, using(crate::proofs::Seen::only_keys_all))]
fn input_members(table: &Table) -> Option<(&str, Cells)>
    ensures { option_map (λ entry. (entry.0.now, entry.1)) result ≡ input_members (table_view table.now) }
{
    if !has_input_keys(table) {
        return None;
    }
    let frame = text_at(table, "frame")?;
    let offset = number_at(table, "offset")?;
    let size = number_at(table, "size")?;
    let low = number_at(table, "low")?;
    let high = number_at(table, "high")?;
    let count = number_or(table, "count", 1)?;
    Some((
        frame,
        Cells {
            offset,
            size,
            low,
            high,
            count,
        },
    ))
}

// The width of a cell of so many bits.
fn width_of(size: i64) -> Option<Width>
    ensures some { IfSome result
        (λ width. (size ≡ pos width.bits) × (is_export_size width.bits ≡ true) × (width.words ≡ pos (2 ^ width.bits))
        × (width.half ≡ pos (2 ^ (width.bits - 1)))) }
    ensures none { IfNone result ((bits : ℕ) → is_export_size bits ≡ true → size ≢ pos bits) }
{
    let (bits, words) = match size {
        8 => (8, 256),
        16 => (16, 65536),
        32 => (32, 4294967296),
        64 => (64, 18446744073709551616),
        _ => return None,
    };
    Some(Width {
        bits,
        words,
        half: words / 2,
    })
}

// The low and the high number are ones of the width, and have fewer than all words between them.
fn has_range(cells: &Cells, width: &Width) -> bool
    requires words { width.now.words ≤ℤ pos 18446744073709551616 }
    requires half { pos 0 ≤ℤ width.now.half }
    requires low_half { width.now.half ≤ℤ pos 18446744073709551616 }
    ensures { IsTrue result ↔ HasRange cells.now width.now.words width.now.half }
{
    let low = i128::from(cells.low);
    let high = i128::from(cells.high);
    if low > high {
        return false;
    }
    if low < -width.half {
        return false;
    }
    if high >= width.words {
        return false;
    }
    high - low < width.words
}

// The cells of an entry, if its numbers are in their ranges.
pub fn run_of(cells: &Cells) -> Option<Run>
    ensures some { IfSome result (IsRun cells.now) }
    ensures none { IfNone result (¬ IsInRange cells.now) }
{
    let width = width_of(cells.size)?;
    if cells.count < 1 || cells.count > 65536 || !has_range(cells, &width) {
        return None;
    }
    Some(Run {
        bits: width.bits,
        count: cells.count as u32,
    })
}
