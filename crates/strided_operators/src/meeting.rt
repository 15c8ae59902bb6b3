//! Whether two progressions may have a number in common.

ghost use Rattle.std.specs.Prelude.{◌≡◌, ◌^◌, pos, neg_ℤ};
ghost use Rattle.progressions.specs.Parts.{IsPiece};
ghost use Rattle.strided_rules.specs.Members.{is_same as is_same_of};
ghost use Rattle.strided_rules.specs.Operators.{agree as agree_of, meet as meet_of};

use progressions::Progression;
use whole_numbers::Whole;

/// It is the other.
pub(crate) fn is_same(n: Whole, m: Whole) -> bool
    ensures { result ≡ is_same_of n m }
{
    n.at_most(m) && m.at_most(n)
}

/// A distance is a multiple of a divisor from 0 on; of 0 that is 0 alone.
fn agree(divisor: Whole, apart: Whole) -> bool
    ensures { result ≡ agree_of divisor apart }
{
    if divisor.at_most(Whole::of(0)) {
        is_same(apart, Whole::of(0))
    } else {
        is_same(apart.rest(divisor), Whole::of(0))
    }
}

/// The ranges overlap, and the low ends agree modulo the common divisor of the steps.
pub(crate) fn meet(p: &Progression, q: &Progression) -> bool
    requires first { IsPiece (neg_ℤ (pos (2 ^ 64))) (pos (2 ^ 64)) p.now }
    requires second { IsPiece (neg_ℤ (pos (2 ^ 64))) (pos (2 ^ 64)) q.now }
    ensures { result ≡ meet_of p.now q.now }
{
    p.lo.at_most(q.hi) && q.lo.at_most(p.hi) && agree(p.step.common_divisor(q.step), p.lo - q.lo)
}
