//! Tests: one bit.

ghost use Rattle.std.specs.Prelude.{◌≡◌, IfOk};
ghost use Rattle.alf_program.specs.Tree.{expression_of};
ghost use Rattle.c_lowered.specs.Values as values;

use crate::arithmetic::signed_or;
use crate::operators::binary_value;
use crate::terms::{of_two, whole};
use crate::widths::shared;
use alf_ops::Op;
use alf_program::Expr;
use c_unit::{Binary, Scalar};
use std::alloc::{AllocError, Global};

/// Whether a value is not 0.
pub fn is_true(alloc: Global, operand: Expr) -> Result<Expr, AllocError>
    ensures { IfOk result (λ e. expression_of e ≡ values.is_true (expression_of operand)) }
{
    of_two(alloc, Op::Neq, operand, whole(0))
}

/// The bit of a comparison of operands of these types, or whether the value of another operator is not 0.
pub fn test_of(
    alloc: Global,
    op: Binary,
    a: Scalar,
    b: Scalar,
    left: Expr,
    right: Expr,
) -> Result<Expr, AllocError>
    ensures { IfOk result (λ e. expression_of e ≡ values.test_of op a b (expression_of left) (expression_of right)) }
{
    match op {
        Binary::Less => of_two(
            alloc,
            signed_or(Op::SLt, Op::ULt, shared(a, b)),
            left,
            right,
        ),
        Binary::Greater => of_two(
            alloc,
            signed_or(Op::SGt, Op::UGt, shared(a, b)),
            left,
            right,
        ),
        Binary::AtMost => of_two(
            alloc,
            signed_or(Op::SLe, Op::ULe, shared(a, b)),
            left,
            right,
        ),
        Binary::AtLeast => of_two(
            alloc,
            signed_or(Op::SGe, Op::UGe, shared(a, b)),
            left,
            right,
        ),
        Binary::Equal => of_two(alloc, Op::Eq, left, right),
        Binary::Unequal => of_two(alloc, Op::Neq, left, right),
        _ => {
            let value = binary_value(alloc, op, a, b, left, right)?;
            is_true(alloc, value)
        }
    }
}
