//! The value of an operator at words.

ghost use Rattle.std.specs.Prelude.{◌≡◌, ◌↔◌, ◌<◌, ◌^◌, IsSome, IsErr, IfOk};
ghost use Rattle.alf_ops.specs.Table.{result_size, size_of_result, operand_sizes};
ghost use Rattle.alf_ops.specs.Words.{value, DividesByZero, EachFits};

use crate::divide::Divide;
use crate::layout::size_at;
use crate::operator::Op;
use crate::words::{
    bit, chosen, complement, concatenated, conjunction, difference, difference_carry, disjunction,
    exclusive_disjunction, field, greater, is_signed_at_most, is_signed_below, lesser, negated,
    product, quotient, remainder, rotated_left, rotated_right, shifted_left, shifted_right,
    sign_extended, signed_greater, signed_lesser, signed_product, signed_quotient,
    signed_remainder, signed_shifted_right, sum, sum_carry, truncated, word_at, zero_extended,
};

/// The value of the operator at operands of these sizes, or `Divide` exactly where it divides by 0.
/// Takes no memory. `shape` and `fits` test the conditions.
#[tactic(auto, using(crate::proofs::WordReadings::word_below))]
pub fn apply(op: Op, sizes: &[u32], args: &[u64]) -> Result<u64, Divide>
    requires typed { IsSome (result_size op sizes.now) }
    requires fitting { EachFits (operand_sizes op sizes.now) args.now }
    ensures divide { IsErr result ↔ DividesByZero op args.now }
    ensures value { IfOk result (λ word. word ≡ value op sizes.now args.now) }
    ensures fits { IfOk result (λ word. word < 2 ^ size_of_result op sizes.now) }
{
    let (m, n, h) = (size_at(sizes, 0), size_at(sizes, 1), size_at(sizes, 2));
    let (a, b, c) = (word_at(args, 0), word_at(args, 1), word_at(args, 2));
    match op {
        Op::Neg => Ok(negated(m, a)),
        Op::Not => Ok(complement(m, a)),
        Op::Add => Ok(sum(m, a, b, c)),
        Op::Sub => Ok(difference(m, a, b, c)),
        Op::CAdd => Ok(bit(sum_carry(m, a, b, c))),
        Op::CSub => Ok(bit(difference_carry(m, a, b, c))),
        Op::UMul => Ok(product(m, n, a, b)),
        Op::SMul => Ok(signed_product(m, n, a, b)),
        Op::UDiv => quotient(m, n, a, b),
        Op::SDiv => signed_quotient(m, n, a, b),
        Op::UMod => remainder(m, n, a, b),
        Op::SMod => signed_remainder(m, n, a, b),
        Op::LShift => Ok(shifted_left(m, a, b)),
        Op::RShift => Ok(shifted_right(m, a, b)),
        Op::RShiftA => Ok(signed_shifted_right(m, a, b)),
        Op::And => Ok(conjunction(m, a, b)),
        Op::Or => Ok(disjunction(m, a, b)),
        Op::Xor => Ok(exclusive_disjunction(m, a, b)),
        Op::Eq => Ok(bit(a == b)),
        Op::Neq => Ok(bit(a != b)),
        Op::ULt => Ok(bit(a < b)),
        Op::ULe => Ok(bit(a <= b)),
        Op::UGt => Ok(bit(a > b)),
        Op::UGe => Ok(bit(a >= b)),
        Op::SLt => Ok(bit(is_signed_below(m, a, b))),
        Op::SLe => Ok(bit(is_signed_at_most(m, a, b))),
        Op::SGt => Ok(bit(is_signed_below(m, b, a))),
        Op::SGe => Ok(bit(is_signed_at_most(m, b, a))),
        Op::SExt => Ok(sign_extended(m, n, a)),
        Op::ZExt => Ok(zero_extended(m, n, a)),
        Op::Trunc => Ok(truncated(n, a)),
        Op::Select => Ok(field(n, h, a)),
        Op::Conc => Ok(concatenated(m, n, a, b)),
        Op::If => Ok(chosen(m, a, b, c)),
        Op::RotL => Ok(rotated_left(m, a, b)),
        Op::RotR => Ok(rotated_right(m, a, b)),
        Op::UMin => Ok(lesser(m, a, b)),
        Op::UMax => Ok(greater(m, a, b)),
        Op::SMin => Ok(signed_lesser(m, a, b)),
        Op::SMax => Ok(signed_greater(m, a, b)),
    }
}
