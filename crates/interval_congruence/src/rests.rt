//! Rests of values by one word.

ghost use Rattle.std.specs.Prelude.{◌≡◌, ◌≢◌, ◌^◌, pos, neg_ℤ, ◌≤ℤ◌, true};
ghost use Rattle.alf_ops.specs.TwosComplement.{signed as signed_of};
ghost use Rattle.strided_rules.specs.Members.{is_one as is_one_of, word_of};
ghost use Rattle.strided_rules.specs.Operators.{u_mod as u_mod_of, s_mod as s_mod_of};
ghost use Rattle.interval_congruence.specs.Divisors.{IsDivisor};

use crate::value::Strided;
use strided_operators::{Rests, SignedRests};
use whole_numbers::Whole;

impl Strided {
    /// The word of its low end, read signed.
    pub(crate) fn signed_word(self) -> Whole
        ensures value { result ≡ signed_of self.size (word_of self) }
        ensures low { neg_ℤ (pos (2 ^ 63)) ≤ℤ result }
        ensures high { result ≤ℤ pos (2 ^ 63) }
        ensures some { IsDivisor self → is_one_of self ≡ true → result ≢ pos 0 }
    {
        self.numbers().lo
    }

    /// What is left of its words by the other's one word, read unsigned; every word where the other
    /// has more.
    pub fn u_mod(self, other: Strided) -> Strided
        requires { IsDivisor other }
        ensures { result ≡ u_mod_of self other }
    {
        if other.is_one() {
            let divisor = Whole::of_word(other.word());
            self.unsigned_each(other.size(), &Rests { divisor })
        } else {
            Strided::every_word(other.size())
        }
    }

    /// What is left of its words by the other's one word, read signed, with the sign of the dividend;
    /// every word where the other has more.
    pub fn s_mod(self, other: Strided) -> Strided
        requires { IsDivisor other }
        ensures { result ≡ s_mod_of self other }
    {
        if other.is_one() {
            let size = other.signed_word().size();
            self.signed_each(other.size(), &SignedRests { size })
        } else {
            Strided::every_word(other.size())
        }
    }
}
