//! The rule of each operator, chosen by its name.

ghost use Rattle.std.specs.Prelude.{◌≡◌, IsSome, slice_get, true};
ghost use Rattle.alf_ops.specs.Table.{result_size, operand_sizes};
ghost use Rattle.alf_ops.specs.Words.{divides as divides_of};
ghost use Rattle.strided_rules.specs.Domains.{ruled as ruled_of};
ghost use Rattle.interval_congruence.specs.Operands.{IsSized};
ghost use Rattle.interval_congruence.specs.Divisors.{IsDivisor};

use crate::value::Strided;
use alf_ops::Op;
use flat_domain::{places, size_of};

/// What the operator gives by its rule.
pub(crate) fn ruled(op: Op, sizes: &[u32], a: Strided, b: Strided, c: Strided) -> Strided
    requires typed { IsSome (result_size op sizes.now) }
    requires first { IsSized (slice_get (operand_sizes op sizes.now) 0) a }
    requires second { IsSized (slice_get (operand_sizes op sizes.now) 1) b }
    requires third { IsSized (slice_get (operand_sizes op sizes.now) 2) c }
    requires divisor { divides_of op ≡ true → IsDivisor b }
    ensures { result ≡ ruled_of op sizes.now a b c }
{
    let size = size_of(op, sizes);
    match op {
        Op::Neg => a.neg(),
        Op::Not => a.complement(),
        Op::Add => a.add(b, c),
        Op::Sub => a.sub(b, c),
        Op::CAdd => Strided::every_word(size),
        Op::CSub => Strided::every_word(size),
        Op::UMul => a.u_mul(b),
        Op::SMul => a.s_mul(b),
        Op::UDiv => a.u_div(b),
        Op::SDiv => a.s_div(b),
        Op::UMod => a.u_mod(b),
        Op::SMod => a.s_mod(b),
        Op::LShift => a.l_shift(b),
        Op::RShift => a.r_shift(b),
        Op::RShiftA => a.r_shift_a(b),
        Op::And => a.conjunction(b),
        Op::Or => Strided::every_word(size),
        Op::Xor => Strided::every_word(size),
        Op::Eq => a.equal(b),
        Op::Neq => a.unequal(b),
        Op::ULt => a.unsigned_less(b),
        Op::ULe => a.unsigned_at_most(b),
        Op::UGt => b.unsigned_less(a),
        Op::UGe => b.unsigned_at_most(a),
        Op::SLt => a.signed_less(b),
        Op::SLe => a.signed_at_most(b),
        Op::SGt => b.signed_less(a),
        Op::SGe => b.signed_at_most(a),
        Op::SExt => a.s_ext(size),
        Op::ZExt => a.z_ext(size),
        Op::Trunc => a.trunc(size),
        Op::Select => {
            let (low, high) = places(sizes);
            a.select(low, high)
        }
        Op::Conc => a.conc(b),
        Op::If => a.choice(b, c),
        Op::RotL => Strided::every_word(size),
        Op::RotR => Strided::every_word(size),
        Op::UMin => a.u_min(b),
        Op::UMax => a.u_max(b),
        Op::SMin => a.s_min(b),
        Op::SMax => a.s_max(b),
    }
}
