//! One of two values, by a bit or by the order of their words.

ghost use Rattle.std.specs.Prelude.{◌≡◌};
ghost use Rattle.strided_rules.specs.Rules.{lesser as lesser_of, greater as greater_of};
ghost use Rattle.strided_rules.specs.Operators.{choice as choice_of, unsigned_pair as unsigned_pair_of};
ghost use Rattle.strided_rules.specs.Operators.{signed_pair as signed_pair_of};

use crate::value::Strided;
use strided_operators::{Greater, Lesser};

impl Strided {
    /// The first where 1 is a member, the second where 0 is, and both joined where both are.
    pub fn choice(self, first: Strided, second: Strided) -> Strided
        requires { first.size ≡ second.size }
        ensures { result ≡ choice_of self first second }
    {
        if self.has(1) {
            if self.has(0) {
                first.join(second)
            } else {
                first
            }
        } else {
            second
        }
    }

    /// The lesser of its words and the other's, read unsigned.
    pub fn u_min(self, other: Strided) -> Strided
        ensures { result ≡ unsigned_pair_of self.size lesser_of self other }
    {
        self.unsigned_pair(self.size(), &Lesser, other)
    }

    /// The greater of its words and the other's, read unsigned.
    pub fn u_max(self, other: Strided) -> Strided
        ensures { result ≡ unsigned_pair_of self.size greater_of self other }
    {
        self.unsigned_pair(self.size(), &Greater, other)
    }

    /// The lesser of its words and the other's, read signed.
    pub fn s_min(self, other: Strided) -> Strided
        ensures { result ≡ signed_pair_of self.size lesser_of self other }
    {
        self.signed_pair(self.size(), &Lesser, other)
    }

    /// The greater of its words and the other's, read signed.
    pub fn s_max(self, other: Strided) -> Strided
        ensures { result ≡ signed_pair_of self.size greater_of self other }
    {
        self.signed_pair(self.size(), &Greater, other)
    }
}
