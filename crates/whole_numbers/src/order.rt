//! Comparisons, and the lesser and the greater of two numbers.

ghost use Rattle.std.specs.Prelude.{◌≡◌, IsTrue, ◌↔◌, int_lt, int_le};
ghost use Rattle.std.specs.Int.{int_min, int_max};

use crate::number::Whole;

impl Whole {
    /// It is below the other.
    pub fn below(self, other: Whole) -> bool
        ensures { result ≡ int_lt self other }
    {
        self.number < other.number
    }

    /// It is at most the other.
    pub fn at_most(self, other: Whole) -> bool
        ensures { result ≡ int_le self other }
    {
        self.number <= other.number
    }

    /// It is the other.
    pub fn equals(self, other: Whole) -> bool
        ensures { IsTrue result ↔ self ≡ other }
    {
        self.number == other.number
    }

    /// The lesser of two.
    pub fn least(self, other: Whole) -> Whole
        ensures { result ≡ int_min self other }
    {
        Whole {
            number: self.number.min(other.number),
        }
    }

    /// The greater of two.
    pub fn greatest(self, other: Whole) -> Whole
        ensures { result ≡ int_max self other }
    {
        Whole {
            number: self.number.max(other.number),
        }
    }
}
