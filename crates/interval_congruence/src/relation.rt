//! What is left of a value where a relation to another is known.

ghost use Rattle.std.specs.Prelude.{◌≡◌, ◌≤◌, ◌^◌, pos, neg_ℤ, ◌-ℤ◌, ◌≤ℤ◌};
ghost use Rattle.progressions.specs.Progressions.{full, half};
ghost use Rattle.strided_rules.specs.Members.{unsigned_greatest as unsigned_greatest_of};
ghost use Rattle.strided_rules.specs.Members.{unsigned_least as unsigned_least_of};
ghost use Rattle.strided_rules.specs.Members.{signed_greatest as signed_greatest_of, signed_least as signed_least_of};
ghost use Rattle.strided_rules.specs.Members.{unsigned_between as unsigned_between_of};
ghost use Rattle.strided_rules.specs.Members.{signed_between as signed_between_of, assumed as assumed_of};
ghost use Rattle.domain_core.specs.declared.relation.Rel.TheVariants.{Eq, Neq};

use crate::value::Strided;
use domain_core::Rel;
use strided_operators::{greatest_of, least_of, power};
use whole_numbers::Whole;

impl Strided {
    /// The greatest member, read unsigned.
    pub(crate) fn unsigned_greatest(self) -> Whole
        ensures value { result ≡ unsigned_greatest_of self }
        ensures low { neg_ℤ (pos (2 ^ 64)) ≤ℤ result }
        ensures high { result ≤ℤ pos (2 ^ 64) }
    {
        let pieces = self.unsigned();
        greatest_of(Whole::of(0), &pieces)
    }

    /// The least member, read unsigned.
    fn unsigned_least(self) -> Whole
        ensures value { result ≡ unsigned_least_of self }
        ensures low { neg_ℤ (pos (2 ^ 64)) ≤ℤ result }
        ensures high { result ≤ℤ pos (2 ^ 64) }
    {
        let pieces = self.unsigned();
        least_of(power(self.size()) - Whole::of(1), &pieces)
    }

    /// The greatest member, read signed.
    fn signed_greatest(self) -> Whole
        ensures value { result ≡ signed_greatest_of self }
        ensures low { neg_ℤ (pos (2 ^ 64)) ≤ℤ result }
        ensures high { result ≤ℤ pos (2 ^ 64) }
    {
        let pieces = self.signed();
        greatest_of(-power(self.size() - 1), &pieces)
    }

    /// The least member, read signed.
    fn signed_least(self) -> Whole
        ensures value { result ≡ signed_least_of self }
        ensures low { neg_ℤ (pos (2 ^ 64)) ≤ℤ result }
        ensures high { result ≤ℤ pos (2 ^ 64) }
    {
        let pieces = self.signed();
        least_of(power(self.size() - 1) - Whole::of(1), &pieces)
    }

    /// The members that may be equal to one of the other.
    fn assume_equal(self, other: Strided) -> Option<Strided>
        ensures { result ≡ assumed_of Eq self other }
    {
        if other.is_one() {
            self.only(other.word())
        } else {
            self.unsigned_between(other.unsigned_least(), other.unsigned_greatest())
        }
    }

    /// The members that may differ from one of the other.
    fn assume_unequal(self, other: Strided) -> Option<Strided>
        ensures { result ≡ assumed_of Neq self other }
    {
        if other.is_one() {
            self.without(other.word())
        } else {
            Some(self)
        }
    }

    /// The members from a number on, read unsigned.
    fn unsigned_from(self, least: Whole) -> Option<Strided>
        ensures { result ≡ unsigned_between_of self least (full self.size -ℤ pos 1) }
    {
        self.unsigned_between(least, power(self.size()) - Whole::of(1))
    }

    /// The members up to a number, read signed.
    fn signed_up_to(self, greatest: Whole) -> Option<Strided>
        ensures { result ≡ signed_between_of self (neg_ℤ (half self.size)) greatest }
    {
        self.signed_between(-power(self.size() - 1), greatest)
    }

    /// The members from a number on, read signed.
    fn signed_from(self, least: Whole) -> Option<Strided>
        ensures { result ≡ signed_between_of self least (half self.size -ℤ pos 1) }
    {
        self.signed_between(least, power(self.size() - 1) - Whole::of(1))
    }

    /// The members that may be in the relation to one of the other, of one size.
    pub(crate) fn assumed(self, rel: Rel, other: Strided) -> Option<Strided>
        requires { self.size ≡ other.size }
        ensures { result ≡ assumed_of rel self other }
    {
        let (zero, one) = (Whole::of(0), Whole::of(1));
        match rel {
            Rel::Eq => self.assume_equal(other),
            Rel::Neq => self.assume_unequal(other),
            Rel::ULt => self.unsigned_between(zero, other.unsigned_greatest() - one),
            Rel::ULe => self.unsigned_between(zero, other.unsigned_greatest()),
            Rel::UGt => self.unsigned_from(other.unsigned_least() + one),
            Rel::UGe => self.unsigned_from(other.unsigned_least()),
            Rel::SLt => self.signed_up_to(other.signed_greatest() - one),
            Rel::SLe => self.signed_up_to(other.signed_greatest()),
            Rel::SGt => self.signed_from(other.signed_least() + one),
            Rel::SGe => self.signed_from(other.signed_least()),
        }
    }
}
