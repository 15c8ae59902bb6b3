//! Operators before an operand.

ghost use Rattle.std.specs.Prelude.{◌≡◌, IfOk};
ghost use Rattle.alf_program.specs.Tree.{NamedExpression, expression_of};
ghost use Rattle.c_lowered.specs.Values as values;
ghost use Rattle.operator_lowering.specs.Operands.{operand_of};

use crate::arithmetic::pointee;
use crate::conversions::loaded;
use crate::operators::compared;
use crate::terms::{negated, of_one, whole};
use alf_ops::Op;
use alf_program::Expr;
use c_unit::{Scalar, Unary};
use std::alloc::{AllocError, Global};

/// An operator at an operand of this type. For `&` what is handed in is where the operand lies, for others its value.
pub fn unary_value(
    alloc: Global,
    op: Unary,
    kind: Scalar,
    operand: Expr,
) -> Result<Expr, AllocError>
    ensures { IfOk result
        (λ e. (value place : NamedExpression) → expression_of operand ≡ operand_of op value place
        → expression_of e ≡ values.unary_value op kind value place) }
{
    match op {
        Unary::Not => compared(alloc, Op::Eq, operand, whole(0)),
        Unary::Complement => of_one(alloc, Op::Not, operand),
        Unary::Minus => negated(alloc, operand),
        Unary::Plus => Ok(operand),
        Unary::Load => loaded(alloc, Scalar::Integer(pointee(kind)), operand),
        Unary::Address => Ok(operand),
    }
}
