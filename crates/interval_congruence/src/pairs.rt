//! Values of what rules give at the choices of pieces of two values.

ghost use Rattle.std.specs.Prelude.{◌≡◌};
ghost use Rattle.domain_core.specs.WordSets.{IsWordSize};
ghost use Rattle.strided_operators.specs.Limits.{TakesEach};
ghost use Rattle.strided_rules.specs.Strides.{IsStride};
ghost use Rattle.strided_rules.specs.Members.{unsigned_of, signed_of};
ghost use Rattle.strided_rules.specs.Operators.{unsigned_pair as unsigned_pair_of, signed_pair as signed_pair_of};

use crate::images::settled;
use crate::value::Strided;
use strided_operators::{PairRule, each_pair};

impl Strided {
    /// What the rule gives at the pieces of both, read unsigned.
    pub(crate) fn unsigned_pair<R: PairRule>(self, size: u32, rule: &R, other: Strided) -> Strided
        requires size { IsWordSize size }
        requires takes { IsStride self → IsStride other
            → TakesEach (λ p. TakesEach (R.takes_both rule.now p) (unsigned_of other)) (unsigned_of self) }
        ensures { result ≡ unsigned_pair_of size (R.gives_both rule.now) self other }
    {
        let (firsts, seconds) = (self.unsigned(), other.unsigned());
        settled(size, each_pair(size, rule, &firsts, &seconds))
    }

    /// The same, read signed.
    pub(crate) fn signed_pair<R: PairRule>(self, size: u32, rule: &R, other: Strided) -> Strided
        requires size { IsWordSize size }
        requires takes { IsStride self → IsStride other
            → TakesEach (λ p. TakesEach (R.takes_both rule.now p) (signed_of other)) (signed_of self) }
        ensures { result ≡ signed_pair_of size (R.gives_both rule.now) self other }
    {
        let (firsts, seconds) = (self.signed(), other.signed());
        settled(size, each_pair(size, rule, &firsts, &seconds))
    }
}
