//! Comparisons of values.

ghost use Rattle.std.specs.Prelude.{◌≡◌, ◌^◌, pos, neg_ℤ};
ghost use Rattle.progressions.specs.Parts.{ArePieces};
ghost use Rattle.strided_rules.specs.Members.{unsigned_of, signed_of};
ghost use Rattle.strided_rules.specs.Operators.{truth as truth_of, less as less_of, less_or_equal as less_or_equal_of};
ghost use Rattle.strided_rules.specs.Operators.{may_equal as may_equal_of, may_differ as may_differ_of};

use crate::value::Strided;
use progressions::Pieces;
use strided_operators::{AtMost, Below, Meet, some_choice};

/// 1 where it may hold, 0 where it may fail.
fn truth(holds: bool, fails: bool) -> Strided
    ensures { result ≡ truth_of holds fails }
{
    if holds && fails {
        Strided::every_word(1)
    } else if holds {
        Strided::one_word(1, 1)
    } else {
        Strided::one_word(1, 0)
    }
}

/// Whether a number of the first is below one of the second.
fn less(a: &Pieces, b: &Pieces) -> Strided
    requires a { ArePieces (neg_ℤ (pos (2 ^ 64))) (pos (2 ^ 64)) a.now }
    requires b { ArePieces (neg_ℤ (pos (2 ^ 64))) (pos (2 ^ 64)) b.now }
    ensures { result ≡ less_of a.now b.now }
{
    let holds = some_choice(&Below, a, b);
    truth(holds, some_choice(&AtMost, b, a))
}

/// Whether a number of the first is at most one of the second.
fn less_or_equal(a: &Pieces, b: &Pieces) -> Strided
    requires a { ArePieces (neg_ℤ (pos (2 ^ 64))) (pos (2 ^ 64)) a.now }
    requires b { ArePieces (neg_ℤ (pos (2 ^ 64))) (pos (2 ^ 64)) b.now }
    ensures { result ≡ less_or_equal_of a.now b.now }
{
    let holds = some_choice(&AtMost, a, b);
    truth(holds, some_choice(&Below, b, a))
}

impl Strided {
    /// Its pieces read unsigned, far from the limits of the machine.
    fn far_unsigned(self) -> Pieces
        ensures value { result ≡ unsigned_of self }
        ensures far { ArePieces (neg_ℤ (pos (2 ^ 64))) (pos (2 ^ 64)) result }
    {
        self.unsigned()
    }

    /// The same, read signed.
    fn far_signed(self) -> Pieces
        ensures value { result ≡ signed_of self }
        ensures far { ArePieces (neg_ℤ (pos (2 ^ 64))) (pos (2 ^ 64)) result }
    {
        self.signed()
    }

    /// What the operator `u_lt` gives by its rule.
    pub fn unsigned_less(self, other: Strided) -> Strided
        ensures { result ≡ less_of (unsigned_of self) (unsigned_of other) }
    {
        let (a, b) = (self.far_unsigned(), other.far_unsigned());
        less(&a, &b)
    }

    /// What the operator `u_le` gives by its rule.
    pub fn unsigned_at_most(self, other: Strided) -> Strided
        ensures { result ≡ less_or_equal_of (unsigned_of self) (unsigned_of other) }
    {
        let (a, b) = (self.far_unsigned(), other.far_unsigned());
        less_or_equal(&a, &b)
    }

    /// What the operator `s_lt` gives by its rule.
    pub fn signed_less(self, other: Strided) -> Strided
        ensures { result ≡ less_of (signed_of self) (signed_of other) }
    {
        let (a, b) = (self.far_signed(), other.far_signed());
        less(&a, &b)
    }

    /// What the operator `s_le` gives by its rule.
    pub fn signed_at_most(self, other: Strided) -> Strided
        ensures { result ≡ less_or_equal_of (signed_of self) (signed_of other) }
    {
        let (a, b) = (self.far_signed(), other.far_signed());
        less_or_equal(&a, &b)
    }

    /// A word of it may be one of the other.
    fn may_equal(self, other: Strided) -> bool
        ensures { result ≡ may_equal_of self other }
    {
        let (a, b) = (self.far_unsigned(), other.far_unsigned());
        some_choice(&Meet, &a, &b)
    }

    /// A word of it may be none of the other.
    fn may_differ(self, other: Strided) -> bool
        ensures { result ≡ may_differ_of self other }
    {
        !(self.is_one() && (other.is_one() && self.word() == other.word()))
    }

    /// What the operator `eq` gives by its rule.
    pub fn equal(self, other: Strided) -> Strided
        ensures { result ≡ truth_of (may_equal_of self other) (may_differ_of self other) }
    {
        let holds = self.may_equal(other);
        truth(holds, self.may_differ(other))
    }

    /// What the operator `neq` gives by its rule.
    pub fn unequal(self, other: Strided) -> Strided
        ensures { result ≡ truth_of (may_differ_of self other) (may_equal_of self other) }
    {
        let holds = self.may_differ(other);
        truth(holds, self.may_equal(other))
    }
}
