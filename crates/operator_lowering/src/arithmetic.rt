//! Sums, differences and products, and what they are for pointers.

ghost use Rattle.std.specs.Prelude.{◌≡◌, IfOk};
ghost use Rattle.alf_program.specs.Tree.{expression_of};
ghost use Rattle.c_meaning.specs.Expressions as meaning;
ghost use Rattle.c_lowered.specs.Values as values;

use crate::terms::{converted, of_pair, whole, with_carry};
use crate::widths::{bytes_of_type, is_signed, left_type};
use alf_ops::Op;
use alf_program::Expr;
use c_unit::{Integer, Scalar};
use std::alloc::{AllocError, Global};

/// The type of what a pointer leads to.
pub fn pointee(kind: Scalar) -> Integer
    ensures { result ≡ meaning.pointee kind }
{
    match kind {
        Scalar::Integer(kind) => kind,
        Scalar::Pointer(kind) => kind,
    }
}

/// The operator with a sign, where the type has one, or the other.
pub fn signed_or(with_sign: Op, without: Op, kind: Integer) -> Op
    ensures { result ≡ values.signed_or with_sign without kind }
{
    if is_signed(kind) { with_sign } else { without }
}

pub fn sum(alloc: Global, left: Expr, right: Expr) -> Result<Expr, AllocError>
    ensures { IfOk result (λ e. expression_of e ≡ values.sum (expression_of left) (expression_of right)) }
{
    with_carry(alloc, Op::Add, left, right, false)
}

pub fn difference(alloc: Global, left: Expr, right: Expr) -> Result<Expr, AllocError>
    ensures { IfOk result (λ e. expression_of e ≡ values.difference (expression_of left) (expression_of right)) }
{
    with_carry(alloc, Op::Sub, left, right, true)
}

pub fn product(alloc: Global, kind: Integer, left: Expr, right: Expr) -> Result<Expr, AllocError>
    ensures { IfOk result (λ e. expression_of e ≡ values.product kind (expression_of left) (expression_of right)) }
{
    let wide = of_pair(alloc, signed_or(Op::SMul, Op::UMul, kind), left, right)?;
    converted(alloc, Op::Trunc, 64, 32, wide)
}

// As many bytes as so many elements have.
fn scaled(alloc: Global, element: Integer, kind: Scalar, count: Expr) -> Result<Expr, AllocError>
    ensures { IfOk result (λ e. expression_of e ≡ values.scaled element kind (expression_of count)) }
{
    let bytes = bytes_of_type(element);
    if bytes == 1 {
        Ok(count)
    } else {
        product(alloc, left_type(kind), count, whole(bytes))
    }
}

// As many elements as so many bytes.
fn counted(alloc: Global, element: Integer, count: Expr) -> Result<Expr, AllocError>
    ensures { IfOk result (λ e. expression_of e ≡ values.counted element (expression_of count)) }
{
    let bytes = bytes_of_type(element);
    if bytes == 1 {
        Ok(count)
    } else {
        of_pair(alloc, Op::SDiv, count, whole(bytes))
    }
}

/// The sum of operands of these types.
pub fn sum_value(
    alloc: Global,
    a: Scalar,
    b: Scalar,
    left: Expr,
    right: Expr,
) -> Result<Expr, AllocError>
    ensures { IfOk result (λ e. expression_of e ≡ values.sum_value a b (expression_of left) (expression_of right)) }
{
    match a {
        Scalar::Integer(_) => match b {
            Scalar::Integer(_) => sum(alloc, left, right),
            Scalar::Pointer(element) => {
                let bytes = scaled(alloc, element, a, left)?;
                sum(alloc, bytes, right)
            }
        },
        Scalar::Pointer(element) => {
            let bytes = scaled(alloc, element, b, right)?;
            sum(alloc, left, bytes)
        }
    }
}

/// The difference of operands of these types.
pub fn difference_value(
    alloc: Global,
    a: Scalar,
    b: Scalar,
    left: Expr,
    right: Expr,
) -> Result<Expr, AllocError>
    ensures { IfOk result
        (λ e. expression_of e ≡ values.difference_value a b (expression_of left) (expression_of right)) }
{
    match a {
        Scalar::Integer(_) => difference(alloc, left, right),
        Scalar::Pointer(element) => match b {
            Scalar::Integer(_) => {
                let bytes = scaled(alloc, element, b, right)?;
                difference(alloc, left, bytes)
            }
            Scalar::Pointer(_) => {
                let bytes = difference(alloc, left, right)?;
                counted(alloc, element, bytes)
            }
        },
    }
}

/// Where an element lies: the type of the base and of the index, and both.
pub fn element_address(
    alloc: Global,
    a: Scalar,
    b: Scalar,
    base: Expr,
    index: Expr,
) -> Result<Expr, AllocError>
    ensures { IfOk result
        (λ e. expression_of e ≡ values.element_address a b (expression_of base) (expression_of index)) }
{
    let bytes = scaled(alloc, pointee(a), b, index)?;
    sum(alloc, base, bytes)
}
