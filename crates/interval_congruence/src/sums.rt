//! Negations, sums and other sizes of values.

ghost use Rattle.std.specs.Prelude.{◌≡◌, ◌≤◌, if◌then◌else◌};
ghost use Rattle.domain_core.specs.WordSets.{IsWordSize};
ghost use Rattle.strided_operators.specs.Limits.{CanPlace};
ghost use Rattle.strided_rules.specs.Joins.{added as added_of, IfPlaced};
ghost use Rattle.strided_rules.specs.Members.{has as has_of};
ghost use Rattle.strided_rules.specs.Operators.{neg as neg_of, complement as complement_of, add as add_of};
ghost use Rattle.strided_rules.specs.Operators.{sub as sub_of, z_ext as z_ext_of, s_ext as s_ext_of, trunc as trunc_of};

use crate::images::{normal, settled};
use crate::value::Strided;
use progressions::Progression;
use strided_operators::{Same, added};
use whole_numbers::Whole;

/// What was joined so far with the sum as well, if the bit is a member of the carry.
fn with_carry(
    size: u32,
    carry: Strided,
    bit: u64,
    sum: &Progression,
    so_far: Option<Progression>,
) -> Option<Progression>
    requires least { 1 ≤ size }
    requires most { size ≤ 64 }
    requires sum { CanPlace sum.now }
    requires so_far { IfPlaced size so_far }
    ensures value { result ≡ (if has_of carry bit then added_of size sum.now so_far else so_far) }
    ensures placed { IfPlaced size result }
{
    if carry.has(bit) {
        added(size, sum, so_far)
    } else {
        so_far
    }
}

impl Strided {
    /// Its numbers with the other sign.
    pub fn neg(self) -> Strided
        ensures { result ≡ neg_of self }
    {
        let numbers = self.numbers();
        normal(self.size(), &numbers.negated())
    }

    /// -1 less its numbers.
    pub fn complement(self) -> Strided
        ensures { result ≡ complement_of self }
    {
        let numbers = self.numbers();
        let negated = numbers.negated();
        normal(self.size(), &negated.moved(Whole::of(-1)))
    }

    /// The sums, by the words 0 and 1 of the carry.
    pub fn add(self, other: Strided, carry: Strided) -> Strided
        ensures { result ≡ add_of self other carry }
    {
        let (size, first, second) = (self.size(), self.numbers(), other.numbers());
        let sums = first.sums(&second);
        let zero = sums.moved(Whole::of(0));
        let one = sums.moved(Whole::of(1));
        let by_zero = with_carry(size, carry, 0, &zero, None);
        settled(size, with_carry(size, carry, 1, &one, by_zero))
    }

    /// The differences, one less where the carry is 0.
    pub fn sub(self, other: Strided, carry: Strided) -> Strided
        ensures { result ≡ sub_of self other carry }
    {
        let (size, first, second) = (self.size(), self.numbers(), other.numbers());
        let differences = first.differences(&second);
        let zero = differences.moved(Whole::of(-1));
        let one = differences.moved(Whole::of(0));
        let by_zero = with_carry(size, carry, 0, &zero, None);
        settled(size, with_carry(size, carry, 1, &one, by_zero))
    }

    /// Its words read unsigned, at the size.
    pub fn z_ext(self, size: u32) -> Strided
        requires { IsWordSize size }
        ensures { result ≡ z_ext_of size self }
    {
        self.unsigned_each(size, &Same)
    }

    /// Its words read signed, at the size.
    pub fn s_ext(self, size: u32) -> Strided
        requires { IsWordSize size }
        ensures { result ≡ s_ext_of size self }
    {
        self.signed_each(size, &Same)
    }

    /// Its words modulo 2 to the size.
    pub fn trunc(self, size: u32) -> Strided
        requires { IsWordSize size }
        ensures { result ≡ trunc_of size self }
    {
        let numbers = self.numbers();
        normal(size, &numbers)
    }
}
