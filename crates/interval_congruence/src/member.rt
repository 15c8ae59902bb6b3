//! Members of a value.

ghost use Rattle.std.specs.Prelude.{◌≡◌};
ghost use Rattle.strided_rules.specs.Members.{has as has_of, only as only_of};

use crate::value::Strided;
use strided_operators::{has_number, power};
use whole_numbers::Whole;

impl Strided {
    /// The word is a member.
    pub fn has(self, bits: u64) -> bool
        ensures { result ≡ has_of self bits }
    {
        let numbers = self.numbers();
        let up = power(self.size());
        let n = Whole::of_word(bits);
        let (below, above) = (n - up, n + up);
        n.below(up)
            && (has_number(&numbers, n)
                || has_number(&numbers, below)
                || has_number(&numbers, above))
    }

    /// The one word, where it is a member.
    pub fn only(self, bits: u64) -> Option<Strided>
        ensures { result ≡ only_of self bits }
    {
        if self.has(bits) {
            Some(Strided::one_word(self.size(), bits))
        } else {
            None
        }
    }
}
