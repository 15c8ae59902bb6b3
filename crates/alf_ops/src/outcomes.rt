//! The operators at values of a run, which may be pointers.

ghost use Rattle.std.specs.Prelude.{◌≡◌, ◌↔◌, ◌<◌, ◌^◌, false, true, IsTrue, IsSome, IsErr, IfOk};
ghost use Rattle.alf_ops.specs.Table.{result_size, operand_sizes, size_of_result};
ghost use Rattle.alf_ops.specs.Words.{divides};
ghost use Rattle.alf_ops.specs.Values.{bits_of, is_pointer, EachValueFits};
ghost use Rattle.alf_ops.specs.Pointers.{operand_at, applied, add_rule, subtract_rule, equality_rule, order_rule};
ghost use Rattle.alf_ops.specs.Pointers.{choice_rule, outcome};

use crate::divide::Divide;
use crate::history::{RunFault, Value};
use crate::operations::apply;
use crate::operator::Op;
use crate::sizes::shape;

/// The operand at this place, or a word where there is none.
fn value_at(values: &[Value], place: usize) -> Value
    ensures { result ≡ operand_at values.now place }
{
    if place < values.len() {
        values[place]
    } else {
        Value::Int { size: 0, bits: 0 }
    }
}

/// The word, or the offset of a pointer.
pub(crate) fn bits(value: Value) -> u64
    ensures { result ≡ bits_of value }
{
    match value {
        Value::Int { bits, .. } => bits,
        Value::Ptr { offset, .. } => offset as u64,
    }
}

/// The value is a pointer.
pub(crate) fn points(value: Value) -> bool
    ensures { result ≡ is_pointer value }
{
    match value {
        Value::Int { .. } => false,
        Value::Ptr { .. } => true,
    }
}

/// The operator's word at the words and offsets.
fn word_at_bits(op: Op, sizes: &[u32], values: &[Value]) -> Result<u64, Divide>
    requires typed { IsSome (result_size op sizes.now) }
    requires fitting { EachValueFits (operand_sizes op sizes.now) values.now }
    ensures divide { IsErr result ↔ (IsTrue (divides op) × (bits_of (operand_at values.now 1) ≡ 0)) }
    ensures value { IfOk result
        (λ word. word
        ≡ applied op sizes.now (operand_at values.now 0) (operand_at values.now 1) (operand_at values.now 2)) }
{
    let words = [
        bits(value_at(values, 0)),
        bits(value_at(values, 1)),
        bits(value_at(values, 2)),
    ];
    apply(op, sizes, &words[..values.len()])
}

/// The size of the operator's result.
fn size_of(op: Op, sizes: &[u32]) -> u32
    requires { IsSome (result_size op sizes.now) }
    ensures { result ≡ size_of_result op sizes.now }
{
    shape(op, sizes).unwrap()
}

/// A pointer and a word, in either order, give a pointer to the same frame.
fn added(sum: u64, a: Value, b: Value) -> Result<Value, RunFault>
    requires { sum < 2 ^ 32 }
    ensures { result ≡ add_rule sum a b }
{
    match (a, b) {
        (Value::Ptr { frame, .. }, Value::Int { .. }) => Ok(Value::Ptr {
            frame,
            offset: sum as u32,
        }),
        (Value::Int { .. }, Value::Ptr { frame, .. }) => Ok(Value::Ptr {
            frame,
            offset: sum as u32,
        }),
        _ => Err(RunFault::Kind),
    }
}

/// A pointer less a word is a pointer, and two pointers to one frame give the word between them.
fn subtracted(size: u32, difference: u64, a: Value, b: Value) -> Result<Value, RunFault>
    requires { difference < 2 ^ 32 }
    ensures { result ≡ subtract_rule size difference a b }
{
    match (a, b) {
        (Value::Ptr { frame, .. }, Value::Int { .. }) => Ok(Value::Ptr {
            frame,
            offset: difference as u32,
        }),
        (Value::Ptr { frame, .. }, Value::Ptr { frame: other, .. }) if frame == other => {
            Ok(Value::Int {
                size,
                bits: difference,
            })
        }
        (Value::Ptr { .. }, Value::Ptr { .. }) => Err(RunFault::Pointers),
        _ => Err(RunFault::Kind),
    }
}

/// Two pointers to one frame compare offsets, and to different frames they are unequal.
fn equated(unequal: u64, test: u64, a: Value, b: Value) -> Result<Value, RunFault>
    ensures { result ≡ equality_rule unequal test a b }
{
    match (a, b) {
        (Value::Ptr { frame, .. }, Value::Ptr { frame: other, .. }) => {
            let bits = if frame == other { test } else { unequal };
            Ok(Value::Int { size: 1, bits })
        }
        _ => Err(RunFault::Kind),
    }
}

/// Two pointers to one frame compare offsets.
fn ordered(test: u64, a: Value, b: Value) -> Result<Value, RunFault>
    ensures { result ≡ order_rule test a b }
{
    match (a, b) {
        (Value::Ptr { frame, .. }, Value::Ptr { frame: other, .. }) if frame == other => {
            Ok(Value::Int {
                size: 1,
                bits: test,
            })
        }
        (Value::Ptr { .. }, Value::Ptr { .. }) => Err(RunFault::Pointers),
        _ => Err(RunFault::Kind),
    }
}

/// Either value may be a pointer, the bit may not.
fn chosen_value(test: Value, a: Value, b: Value) -> Result<Value, RunFault>
    ensures { result ≡ choice_rule test a b }
{
    match test {
        Value::Int { bits, .. } => Ok(if bits == 1 { a } else { b }),
        Value::Ptr { .. } => Err(RunFault::Kind),
    }
}

/// The operator's word at the words and offsets, where it does not divide.
fn undivided(op: Op, sizes: &[u32], values: &[Value]) -> u64
    requires typed { IsSome (result_size op sizes.now) }
    requires fitting { EachValueFits (operand_sizes op sizes.now) values.now }
    requires undivided { divides op ≡ false }
    ensures { result
        ≡ applied op sizes.now (operand_at values.now 0) (operand_at values.now 1) (operand_at values.now 2) }
{
    match word_at_bits(op, sizes, values) {
        Ok(word) => word,
        Err(Divide) => unreachable!(),
    }
}

/// The value or the fault of the operator at the values of its operands. Takes no memory. `shape`
/// and `values_fit` test the conditions.
pub fn apply_to_values(op: Op, sizes: &[u32], values: &[Value]) -> Result<Value, RunFault>
    requires typed { IsSome (result_size op sizes.now) }
    requires fitting { EachValueFits (operand_sizes op sizes.now) values.now }
    ensures { result ≡ outcome op sizes.now values.now }
{
    let (a, b, c) = (
        value_at(values, 0),
        value_at(values, 1),
        value_at(values, 2),
    );
    if !points(a) && !points(b) && !points(c) {
        return match word_at_bits(op, sizes, values) {
            Ok(bits) => Ok(Value::Int {
                size: size_of(op, sizes),
                bits,
            }),
            Err(Divide) => Err(RunFault::Divide),
        };
    }
    match op {
        Op::Add if !points(c) => added(undivided(op, sizes, values), a, b),
        Op::Sub if !points(c) => subtracted(size_of(op, sizes), undivided(op, sizes, values), a, b),
        Op::Eq => equated(0, undivided(op, sizes, values), a, b),
        Op::Neq => equated(1, undivided(op, sizes, values), a, b),
        Op::ULt | Op::ULe | Op::UGt | Op::UGe => ordered(undivided(op, sizes, values), a, b),
        Op::If => chosen_value(a, b, c),
        _ => Err(RunFault::Kind),
    }
}
