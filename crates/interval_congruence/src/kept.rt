//! Parts of the pieces of a value, joined.

ghost use Rattle.std.specs.Prelude.{◌≡◌, ◌^◌, pos, neg_ℤ};
ghost use Rattle.domain_core.specs.WordSets.{IsWordSize};
ghost use Rattle.progressions.specs.Parts.{ArePieces, between as between_of};
ghost use Rattle.strided_rules.specs.Joins.{IfPlaced, kept_value as kept_value_of};
ghost use Rattle.strided_rules.specs.Members.{rest_of, without as without_of, unsigned_between as unsigned_between_of};
ghost use Rattle.strided_rules.specs.Members.{signed_between as signed_between_of};

use crate::value::Strided;
use progressions::{Pieces, Progression};
use strided_operators::{Same, between, each, without_end};
use whole_numbers::Whole;

/// The value of what was joined, if there was a piece.
fn kept_value(size: u32, joined: Option<Progression>) -> Option<Strided>
    requires size { IsWordSize size }
    requires placed { IfPlaced size joined }
    ensures { result ≡ kept_value_of size joined }
{
    match joined {
        None => None,
        Some(numbers) => Some(Strided::of(size, numbers)),
    }
}

/// The numbers of the pieces from `least` to `greatest`, joined.
fn pieces_between(size: u32, least: Whole, greatest: Whole, pieces: &Pieces) -> Option<Strided>
    requires size { IsWordSize size }
    requires pieces { ArePieces (neg_ℤ (pos (2 ^ 64))) (pos (2 ^ 64)) pieces.now }
    ensures { result ≡ rest_of size (between_of least greatest) pieces.now }
{
    let parts = Pieces {
        first: between(least, greatest, pieces.first),
        second: between(least, greatest, pieces.second),
        third: between(least, greatest, pieces.third),
    };
    kept_value(size, each(size, &Same, &parts))
}

impl Strided {
    /// The word dropped from each unsigned piece whose first or last number it is, the rest joined.
    pub fn without(self, bits: u64) -> Option<Strided>
        ensures { result ≡ without_of self bits }
    {
        let (size, pieces) = (self.size(), self.unsigned());
        let word = Whole::of_word(bits);
        let parts = Pieces {
            first: without_end(word, pieces.first),
            second: without_end(word, pieces.second),
            third: without_end(word, pieces.third),
        };
        kept_value(size, each(size, &Same, &parts))
    }

    /// The members from `least` to `greatest`, read unsigned.
    pub(crate) fn unsigned_between(self, least: Whole, greatest: Whole) -> Option<Strided>
        ensures { result ≡ unsigned_between_of self least greatest }
    {
        let (size, pieces) = (self.size(), self.unsigned());
        pieces_between(size, least, greatest, &pieces)
    }

    /// The same, read signed.
    pub(crate) fn signed_between(self, least: Whole, greatest: Whole) -> Option<Strided>
        ensures { result ≡ signed_between_of self least greatest }
    {
        let (size, pieces) = (self.size(), self.signed());
        pieces_between(size, least, greatest, &pieces)
    }
}
