//! Sizes of expressions.

ghost use Rattle.std.specs.Prelude.{◌≡◌, map};
ghost use Rattle.std.specs.Option.{option_map};
ghost use Rattle.alf_program.specs.Tree.{expression_of, expressions_of};
ghost use Rattle.alf_faults.specs.Fault.{is_exactly};
ghost use Rattle.alf_faults.specs.TermSizes.{term_size, operands_fit, same_size, is_bytes, return_size};

use alf_ops::{Op, operand, shape};
use alf_program::Expr;

/// The size of the expression in bits, or None where it breaks a size rule.
#[cycle(sizes)]
pub fn term_size(expr: &Expr) -> Option<u32>
    ensures { result ≡ term_size (expression_of expr.now) }
{
    match expr {
        Expr::Num(num) => Some(num.size),
        Expr::Addr(_, _) => Some(32),
        Expr::Load(size, at) => {
            if is_size(32, term_size(at)) {
                Some(*size)
            } else {
                None
            }
        }
        Expr::Apply(op, sizes, operands) => {
            if operands_fit(*op, sizes, operands) {
                shape(*op, sizes)
            } else {
                None
            }
        }
    }
}

// Whether each operand has the size of its place in the operator's row, and none is missing.
#[cycle(sizes)]
#[tactic(auto, using(crate::proofs::Operands::operand_within))]
fn operands_fit(op: Op, sizes: &[u32], operands: &[Expr]) -> bool
    ensures { result ≡ operands_fit op sizes.now 0 (expressions_of (map expression_of operands.now)) }
{
    let mut place = 0;
    for first in operands {
        if !same_size(operand(op, sizes, place), term_size(first)) {
            return false;
        }
        place += 1;
    }
    operand(op, sizes, place).is_none()
}

/// Whether there is a size, and it is this one.
pub fn is_size(size: u32, found: Option<u32>) -> bool
    ensures { result ≡ is_exactly size found }
{
    match found {
        Some(other) => other == size,
        None => false,
    }
}

/// Whether there are both sizes, and they are the same.
pub fn same_size(size: Option<u32>, other: Option<u32>) -> bool
    ensures { result ≡ same_size size other }
{
    match size {
        Some(size) => is_size(size, other),
        None => false,
    }
}

/// Whether there is a size, and it is a multiple of 8.
pub fn is_bytes(size: Option<u32>) -> bool
    ensures { result ≡ is_bytes size }
{
    match size {
        Some(size) => size % 8 == 0,
        None => false,
    }
}

/// The size of what a return gives: 0 where it has no expression.
pub fn return_size(value: &Option<Expr>) -> Option<u32>
    ensures { result ≡ return_size (option_map expression_of value.now) }
{
    match value {
        Some(value) => term_size(value),
        None => Some(0),
    }
}
