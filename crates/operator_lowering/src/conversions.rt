//! Conversions between words of 32 bits and the bits of types.

ghost use Rattle.std.specs.Prelude.{◌≡◌, IfOk};
ghost use Rattle.alf_program.specs.Tree.{expression_of};
ghost use Rattle.c_lowered.specs.Values as values;

use crate::terms::{converted, load};
use crate::widths::{bits_of_type, is_signed};
use alf_ops::Op;
use alf_program::Expr;
use c_unit::{Integer, Scalar};
use std::alloc::{AllocError, Global};

// The operator that keeps a sign, or the one that puts zeros before.
fn extension(signed: bool) -> Op
    ensures { result ≡ values.extension signed }
{
    if signed { Op::SExt } else { Op::ZExt }
}

/// The bits of an integer type, as a word of 32 bits.
pub fn extended(alloc: Global, kind: Integer, operand: Expr) -> Result<Expr, AllocError>
    ensures { IfOk result (λ e. expression_of e ≡ values.extended kind (expression_of operand)) }
{
    let bits = bits_of_type(kind);
    if bits == 32 {
        Ok(operand)
    } else {
        converted(alloc, extension(is_signed(kind)), bits, 32, operand)
    }
}

/// A word of 32 bits, as an object of the integer type has it.
pub fn cut(alloc: Global, kind: Integer, operand: Expr) -> Result<Expr, AllocError>
    ensures { IfOk result (λ e. expression_of e ≡ values.cut kind (expression_of operand)) }
{
    let bits = bits_of_type(kind);
    if bits == 32 {
        Ok(operand)
    } else {
        converted(alloc, Op::Trunc, 32, bits, operand)
    }
}

/// A value, as an object of the type has it.
pub fn cut_to(alloc: Global, kind: Scalar, operand: Expr) -> Result<Expr, AllocError>
    ensures { IfOk result (λ e. expression_of e ≡ values.cut_to kind (expression_of operand)) }
{
    match kind {
        Scalar::Integer(kind) => cut(alloc, kind, operand),
        Scalar::Pointer(_) => Ok(operand),
    }
}

/// A cast to the type.
pub fn cast_to(alloc: Global, kind: Scalar, operand: Expr) -> Result<Expr, AllocError>
    ensures { IfOk result (λ e. expression_of e ≡ values.cast_to kind (expression_of operand)) }
{
    match kind {
        Scalar::Integer(kind) => {
            let low = cut(alloc, kind, operand)?;
            extended(alloc, kind, low)
        }
        Scalar::Pointer(_) => Ok(operand),
    }
}

/// What an object of the type holds at an address, as an expression has it.
pub fn loaded(alloc: Global, kind: Scalar, at: Expr) -> Result<Expr, AllocError>
    ensures { IfOk result (λ e. expression_of e ≡ values.loaded kind (expression_of at)) }
{
    match kind {
        Scalar::Integer(kind) => {
            let held = load(alloc, bits_of_type(kind), at)?;
            extended(alloc, kind, held)
        }
        Scalar::Pointer(_) => load(alloc, 32, at),
    }
}
