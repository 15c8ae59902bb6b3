//! Conjunctions of the bits of values.

ghost use Rattle.std.specs.Prelude.{◌≡◌, ◌≤◌, IfSome};
ghost use Rattle.strided_rules.specs.Operators.{mask_of, masked as masked_of, conjunction as conjunction_of};
ghost use Rattle.strided_rules.specs.Operators.{conjunction_by as conjunction_by_of};

use crate::images::normal;
use crate::value::Strided;
use progressions::Progression;
use strided_operators::mask_size;
use whole_numbers::Whole;

impl Strided {
    /// The bits of its one word, where these are the lowest alone.
    fn mask(self) -> Option<u32>
        ensures value { result ≡ mask_of self }
        ensures most { IfSome result (λ bits. bits ≤ self.size) }
    {
        if self.is_one() {
            mask_size(self.size(), self.word())
        } else {
            None
        }
    }

    /// The lowest bits of its words alone.
    fn masked(self, bits: u32) -> Strided
        requires { bits ≤ 64 }
        ensures { result ≡ masked_of bits self }
    {
        let size = self.size();
        if bits == 0 {
            Strided::one_word(size, 0)
        } else if bits == size {
            self
        } else {
            self.trunc(bits).z_ext(size)
        }
    }

    /// The words from 0 to the lesser of the greatest ones, where neither is a mask.
    fn to_lesser(self, other: Strided) -> Strided
        ensures { result ≡ conjunction_by_of None None self other }
    {
        let greatest = self.unsigned_greatest().least(other.unsigned_greatest());
        let words = Progression::from_to(Whole::of(0), greatest, Whole::of(1));
        normal(self.size(), &words)
    }

    /// What the operator `and` gives by its rule.
    pub fn conjunction(self, other: Strided) -> Strided
        ensures { result ≡ conjunction_of self other }
    {
        match self.mask() {
            Some(bits) => other.masked(bits),
            None => match other.mask() {
                Some(bits) => self.masked(bits),
                None => self.to_lesser(other),
            },
        }
    }
}
