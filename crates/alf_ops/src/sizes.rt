//! The sizes of an operator's result and of its operands, and whether operands have them.

ghost use Rattle.std.specs.Prelude.{◌≡◌, ◌↔◌, ◌<◌, ◌^◌, IsTrue, slice_get};
ghost use Rattle.alf_ops.specs.Table.{layout_of, result_size, operand_size, operand_sizes};
ghost use Rattle.alf_ops.specs.Words.{FitsWord, EachFits};
ghost use Rattle.alf_ops.specs.Values.{FitsValue, EachValueFits};
ghost use Rattle.alf_ops.specs.OperandLaws.{FitsAt};

use crate::history::Value;
use crate::layout::{Layout, may_stand, operand_of, result_of, size_at, sizes_written};
use crate::operator::Op;

/// How the sizes, the operands and the result of an operator's row belong together.
fn layout_of(op: Op) -> Layout
    ensures { result ≡ layout_of op }
{
    match op {
        Op::Neg | Op::Not => Layout::Unary,
        Op::Add | Op::Sub => Layout::Sum,
        Op::CAdd | Op::CSub => Layout::Carry,
        Op::UMul | Op::SMul | Op::Conc => Layout::Joined,
        Op::UDiv | Op::SDiv => Layout::First,
        Op::UMod | Op::SMod => Layout::Second,
        Op::LShift | Op::RShift | Op::RShiftA | Op::RotL | Op::RotR => Layout::First,
        Op::And | Op::Or | Op::Xor => Layout::Binary,
        Op::UMin | Op::UMax | Op::SMin | Op::SMax => Layout::Binary,
        Op::Eq | Op::Neq => Layout::Comparison,
        Op::ULt | Op::ULe | Op::UGt | Op::UGe => Layout::Comparison,
        Op::SLt | Op::SLe | Op::SGt | Op::SGe => Layout::Comparison,
        Op::SExt | Op::ZExt => Layout::Extension,
        Op::Trunc => Layout::Truncation,
        Op::Select => Layout::Field,
        Op::If => Layout::Choice,
    }
}

/// The size of the result, or None exactly where the table has no result for these sizes.
pub fn shape(op: Op, sizes: &[u32]) -> Option<u32>
    ensures { result ≡ result_size op sizes.now }
{
    let layout = layout_of(op);
    let (m, n, h) = (size_at(sizes, 0), size_at(sizes, 1), size_at(sizes, 2));
    if sizes.len() == sizes_written(layout) && may_stand(layout, m, n, h) {
        Some(result_of(layout, m, n, h))
    } else {
        None
    }
}

/// The size of operand i where these sizes are written, whether or not they may stand there.
fn size_wanted(op: Op, sizes: &[u32], i: u32) -> Option<u32>
    ensures { result ≡ slice_get (operand_sizes op sizes.now) i }
{
    let (m, n, h) = (size_at(sizes, 0), size_at(sizes, 1), size_at(sizes, 2));
    operand_of(layout_of(op), m, n, h, i)
}

/// The size of operand i, or None exactly where the table has no result for these sizes or there
/// is no such operand.
pub fn operand(op: Op, sizes: &[u32], i: u32) -> Option<u32>
    ensures { result ≡ operand_size op sizes.now i }
{
    if shape(op, sizes).is_some() {
        size_wanted(op, sizes, i)
    } else {
        None
    }
}

/// The word is below 2 to the size.
fn is_below(word: u64, size: u32) -> bool
    ensures { IsTrue result ↔ (word < 2 ^ size) }
{
    if size < 64 { word < 1 << size } else { true }
}

/// There is a word for operand i and it fits, or there is neither.
fn word_fits_at(op: Op, sizes: &[u32], i: u32, args: &[u64]) -> bool
    ensures { IsTrue result ↔ FitsAt FitsWord (slice_get (operand_sizes op sizes.now) i) (slice_get args.now i) }
{
    match size_wanted(op, sizes, i) {
        None => args.len() <= i as usize,
        Some(size) => (i as usize) < args.len() && is_below(args[i as usize], size),
    }
}

/// Whether there is one word below 2 to its size for each operand: the condition of `apply`.
#[tactic(auto, using(crate::proofs::Fitting::words_by_places))]
pub fn fits(op: Op, sizes: &[u32], args: &[u64]) -> bool
    ensures { IsTrue result ↔ EachFits (operand_sizes op sizes.now) args.now }
{
    args.len() <= 3
        && word_fits_at(op, sizes, 0, args)
        && word_fits_at(op, sizes, 1, args)
        && word_fits_at(op, sizes, 2, args)
}

/// The value has the size, and its word is in range.
fn is_of(value: Value, size: u32) -> bool
    ensures { IsTrue result ↔ FitsValue size value }
{
    match value {
        Value::Int { size: own, bits } => own == size && is_below(bits, size),
        Value::Ptr { .. } => size == 32,
    }
}

/// There is a value for operand i and it fits, or there is neither.
fn value_fits_at(op: Op, sizes: &[u32], i: u32, values: &[Value]) -> bool
    ensures { IsTrue result ↔ FitsAt FitsValue (slice_get (operand_sizes op sizes.now) i) (slice_get values.now i) }
{
    match size_wanted(op, sizes, i) {
        None => values.len() <= i as usize,
        Some(size) => (i as usize) < values.len() && is_of(values[i as usize], size),
    }
}

/// Whether there is one value of its size for each operand: the condition of `apply_to_values`.
#[tactic(auto, using(crate::proofs::Fitting::values_by_places))]
pub fn values_fit(op: Op, sizes: &[u32], values: &[Value]) -> bool
    ensures { IsTrue result ↔ EachValueFits (operand_sizes op sizes.now) values.now }
{
    values.len() <= 3
        && value_fits_at(op, sizes, 0, values)
        && value_fits_at(op, sizes, 1, values)
        && value_fits_at(op, sizes, 2, values)
}
