//! Equality of values.

ghost use Rattle.std.specs.Prelude.{◌≡◌, ◌↔◌, IsTrue};

use crate::value::AVal;
use interval_congruence::Strided;

/// Both have the same words, or none.
fn same_words(a: Option<Strided>, b: Option<Strided>) -> bool
    ensures { IsTrue result ↔ a ≡ b }
{
    a == b
}

/// Both are the same offsets in the same frame.
fn same_place(a: (u32, Strided), b: (u32, Strided)) -> bool
    ensures { IsTrue result ↔ a ≡ b }
{
    a == b
}

/// Both have the same places.
fn same_places(a: &[(u32, Strided)], b: &[(u32, Strided)]) -> bool
    ensures { IsTrue result ↔ a.now ≡ b.now }
{
    let Some((first, others)) = a.split_first() else {
        return b.is_empty();
    };
    let Some((place, places)) = b.split_first() else {
        return false;
    };
    same_place(*first, *place) && same_places(others, places)
}

impl AVal {
    /// Both are the same value.
    pub fn is_same(&self, other: &AVal) -> bool
        ensures { IsTrue result ↔ self.now ≡ other.now }
    {
        same_words(self.int(), other.int()) && same_places(self.at(), other.at())
    }
}
