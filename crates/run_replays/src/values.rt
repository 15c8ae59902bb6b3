//! The values of a run.

ghost use Rattle.std.specs.Prelude.{◌≡◌, ◌≤◌, ◌^◌, ◌↔◌, IsTrue, All, length, IfOk, OnErr, IfSome, IfNone};
ghost use Rattle.alf_check.specs.declared.rows.InputRow.{InputRow};
ghost use Rattle.alf_ops.specs.TwosComplement.{word};
ghost use Rattle.alf_runs.specs.Starts.{IsWithin, AreWithin, words_of as words_of_values};
ghost use Rattle.run_replays.specs.Replays.{IsOutside};

use alf_check::InputRow;
use report_objections::Objection;
use std::alloc::{AllocError, Global};
use whole_numbers::Whole;

/// That a value is outside of the range of its row, for the first one that is. 2^32 rows or more are want of memory,
/// and nothing else is.
pub fn outside(rows: &[InputRow], values: &[i64]) -> Result<Option<Objection>, AllocError>
    requires one_each { length values.now ≡ length rows.now }
    ensures none { IfOk result (λ outside. IfNone outside (AreWithin rows.now values.now)) }
    ensures some { IfOk result (λ outside. IfSome outside (λ e. IsOutside rows.now values.now e)) }
    ensures many { OnErr result (2 ^ 32 ≤ length rows.now) }
{
    if rows.len() > 4294967295 {
        return Err(AllocError);
    }
    for k in 0..rows.len() {
        if !is_within(&rows[k], &values[k]) {
            return Ok(Some(Objection::Outside(k as u32)));
        }
    }
    Ok(None)
}

// Whether the value is inside the range of the row.
fn is_within(row: &InputRow, value: &i64) -> bool
    ensures { IsTrue result ↔ IsWithin row.now value.now }
{
    row.low <= i128::from(*value) && i128::from(*value) <= row.high
}

/// The words of the values, in two's complement.
pub fn words_of(alloc: Global, rows: &[InputRow], values: &[i64]) -> Result<Vec<u64>, AllocError>
    requires sizes { All (λ (row : InputRow). row.size ≤ 64) rows.now }
    requires one_each { length values.now ≡ length rows.now }
    ensures { IfOk result (λ words. words.items ≡ words_of_values rows.now values.now) }
{
    let mut words = Vec::new(alloc);
    for k in 0..rows.len() {
        words.push(word_of(&rows[k], &values[k]))?;
    }
    Ok(words)
}

// The word of a value.
fn word_of(row: &InputRow, value: &i64) -> u64
    requires { row.now.size ≤ 64 }
    ensures { result ≡ word row.now.size value.now }
{
    Whole::of(i128::from(*value))
        .rest(Whole::power_of_two(row.size))
        .word()
}
