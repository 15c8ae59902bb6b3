//! Values of what rules give at the pieces of values.

ghost use Rattle.std.specs.Prelude.{◌≡◌};
ghost use Rattle.domain_core.specs.WordSets.{IsWordSize};
ghost use Rattle.strided_operators.specs.Limits.{CanPlace};
ghost use Rattle.strided_rules.specs.Strides.{norm as norm_of};
ghost use Rattle.strided_rules.specs.Joins.{IfPlaced, settled as settled_of};
ghost use Rattle.strided_rules.specs.Operators.{unsigned_each as unsigned_each_of, signed_each as signed_each_of};

use crate::turns::are_words;
use crate::value::Strided;
use progressions::Progression;
use strided_operators::{Rule, each, normed};

/// The value of what was joined; every word where there was no piece.
pub fn settled(size: u32, joined: Option<Progression>) -> Strided
    requires size { IsWordSize size }
    requires placed { IfPlaced size joined }
    ensures { result ≡ settled_of size joined }
{
    match joined {
        None => Strided::every_word(size),
        Some(numbers) => Strided::of(size, numbers),
    }
}

/// The value of the numbers in normal form.
pub fn normal(size: u32, p: &Progression) -> Strided
    requires size { IsWordSize size }
    requires p { CanPlace p.now }
    ensures { result ≡ record { size = size; numbers = norm_of size p.now } }
{
    Strided::of(size, normed(size, p))
}

impl Strided {
    /// What the rule gives at the pieces, read unsigned.
    pub(crate) fn unsigned_each<R: Rule>(self, size: u32, rule: &R) -> Strided
        requires { IsWordSize size }
        ensures { result ≡ unsigned_each_of size (R.gives rule.now) self }
    {
        let numbers = self.numbers();
        if are_words(self.size(), &numbers) {
            return normal(size, &rule.at(&numbers));
        }
        let pieces = self.unsigned();
        settled(size, each(size, rule, &pieces))
    }

    /// The same, read signed.
    pub(crate) fn signed_each<R: Rule>(self, size: u32, rule: &R) -> Strided
        requires { IsWordSize size }
        ensures { result ≡ signed_each_of size (R.gives rule.now) self }
    {
        let pieces = self.signed();
        settled(size, each(size, rule, &pieces))
    }
}
