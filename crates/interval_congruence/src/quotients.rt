//! Quotients of values.

ghost use Rattle.std.specs.Prelude.{◌≡◌};
ghost use Rattle.strided_rules.specs.Rules.{ratios as ratios_of};
ghost use Rattle.strided_rules.specs.Operators.{unsigned_pair as unsigned_pair_of, s_div as s_div_of};
ghost use Rattle.interval_congruence.specs.Divisors.{IsDivisor};

use crate::value::Strided;
use strided_operators::{Ratios, TowardZero};

impl Strided {
    /// The quotients of its words by the other's, read unsigned; by 0 they are as by 1.
    pub fn u_div(self, other: Strided) -> Strided
        ensures { result ≡ unsigned_pair_of self.size ratios_of self other }
    {
        self.unsigned_pair(self.size(), &Ratios, other)
    }

    /// The quotients of its words by the other's one word, read signed and rounded toward 0; every
    /// word where the other has more.
    pub fn s_div(self, other: Strided) -> Strided
        requires { IsDivisor other }
        ensures { result ≡ s_div_of self other }
    {
        if other.is_one() {
            let divisor = other.signed_word();
            self.signed_each(self.size(), &TowardZero { divisor })
        } else {
            Strided::every_word(self.size())
        }
    }
}
