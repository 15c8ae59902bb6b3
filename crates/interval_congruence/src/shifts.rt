//! Values shifted.

ghost use Rattle.std.specs.Prelude.{◌≡◌};
ghost use Rattle.strided_rules.specs.Operators.{by_word, l_shift_by as l_shift_by_of, r_shift_by as r_shift_by_of};
ghost use Rattle.strided_rules.specs.Operators.{r_shift_a_by as r_shift_a_by_of};

use crate::value::Strided;
use strided_operators::{Shifts, shifted_left};

impl Strided {
    /// Its numbers times 2 to the bits.
    fn l_shift_by(self, bits: u64) -> Strided
        ensures { result ≡ l_shift_by_of self bits }
    {
        let (size, numbers) = (self.size(), self.numbers());
        if size as u64 <= bits {
            Strided::one_word(size, 0)
        } else {
            Strided::of(size, shifted_left(size, bits as u32, &numbers))
        }
    }

    /// Its words, read unsigned, by 2 to the bits, rounded down.
    pub(crate) fn r_shift_by(self, bits: u64) -> Strided
        ensures { result ≡ r_shift_by_of self bits }
    {
        self.unsigned_each(self.size(), &Shifts { bits })
    }

    /// Its words shifted to higher places by the other's one word; every word where that has more.
    pub fn l_shift(self, other: Strided) -> Strided
        ensures { result ≡ by_word other self.size (l_shift_by_of self) }
    {
        if other.is_one() {
            self.l_shift_by(other.word())
        } else {
            Strided::every_word(self.size())
        }
    }

    /// The same to lower places.
    pub fn r_shift(self, other: Strided) -> Strided
        ensures { result ≡ by_word other self.size (r_shift_by_of self) }
    {
        if other.is_one() {
            self.r_shift_by(other.word())
        } else {
            Strided::every_word(self.size())
        }
    }

    /// The same with copies of the sign.
    pub fn r_shift_a(self, other: Strided) -> Strided
        ensures { result ≡ by_word other self.size (r_shift_a_by_of self) }
    {
        if other.is_one() {
            self.signed_each(self.size(), &Shifts { bits: other.word() })
        } else {
            Strided::every_word(self.size())
        }
    }
}
