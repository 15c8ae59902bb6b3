//! Operators, by the types of their operands.

ghost use Rattle.std.specs.Prelude.{◌≡◌, IfOk};
ghost use Rattle.alf_program.specs.Tree.{expression_of};
ghost use Rattle.c_lowered.specs.Values as values;

use crate::arithmetic::{difference_value, product, signed_or, sum_value};
use crate::terms::{converted, of_pair, of_two, whole};
use crate::widths::{left_type, shared};
use alf_ops::Op;
use alf_program::Expr;
use c_unit::{Binary, Scalar};
use std::alloc::{AllocError, Global};

// A bit as a word.
fn bit_value(alloc: Global, operand: Expr) -> Result<Expr, AllocError>
    ensures { IfOk result (λ e. expression_of e ≡ values.bit_value (expression_of operand)) }
{
    converted(alloc, Op::ZExt, 1, 32, operand)
}

/// A comparison, as a word.
pub fn compared(alloc: Global, op: Op, left: Expr, right: Expr) -> Result<Expr, AllocError>
    ensures { IfOk result
        (λ e. expression_of e ≡ values.bit_value (values.compared op (expression_of left) (expression_of right))) }
{
    let test = of_two(alloc, op, left, right)?;
    bit_value(alloc, test)
}

/// An operator at operands of these types. `&&` and `||` have no value and give 0.
pub fn binary_value(
    alloc: Global,
    op: Binary,
    a: Scalar,
    b: Scalar,
    left: Expr,
    right: Expr,
) -> Result<Expr, AllocError>
    ensures { IfOk result
        (λ e. expression_of e ≡ values.binary_value op a b (expression_of left) (expression_of right)) }
{
    let kind = shared(a, b);
    match op {
        Binary::Multiply => product(alloc, kind, left, right),
        Binary::Divide => of_pair(alloc, signed_or(Op::SDiv, Op::UDiv, kind), left, right),
        Binary::Remainder => of_pair(alloc, signed_or(Op::SMod, Op::UMod, kind), left, right),
        Binary::Add => sum_value(alloc, a, b, left, right),
        Binary::Subtract => difference_value(alloc, a, b, left, right),
        Binary::ShiftLeft => of_pair(alloc, Op::LShift, left, right),
        Binary::ShiftRight => of_pair(
            alloc,
            signed_or(Op::RShiftA, Op::RShift, left_type(a)),
            left,
            right,
        ),
        Binary::Less => compared(alloc, signed_or(Op::SLt, Op::ULt, kind), left, right),
        Binary::Greater => compared(alloc, signed_or(Op::SGt, Op::UGt, kind), left, right),
        Binary::AtMost => compared(alloc, signed_or(Op::SLe, Op::ULe, kind), left, right),
        Binary::AtLeast => compared(alloc, signed_or(Op::SGe, Op::UGe, kind), left, right),
        Binary::Equal => compared(alloc, Op::Eq, left, right),
        Binary::Unequal => compared(alloc, Op::Neq, left, right),
        Binary::And => of_two(alloc, Op::And, left, right),
        Binary::Xor => of_two(alloc, Op::Xor, left, right),
        Binary::Or => of_two(alloc, Op::Or, left, right),
        Binary::Both => Ok(whole(0)),
        Binary::Either => Ok(whole(0)),
    }
}
