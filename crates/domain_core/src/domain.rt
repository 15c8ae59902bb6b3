//! Domains of words.

ghost use Rattle.std.specs.Prelude.{◌≡◌, ◌<◌, ◌^◌, IsSome};
ghost use Rattle.alf_ops.specs.Table.{result_size, operand_sizes};
ghost use Rattle.domain_core.specs.WordSets.{WordSets, IsWordSets, IsWordSize, HaveSizes};

use crate::{Applied, Lattice, Rel};
use alf_ops::Op;

/// A set of words of one size: what is known of a value, over all runs that come to a point.
///
/// Knowing less is always allowed: `whole` is a right answer wherever a value is wanted, and costs
/// only exactness. Leaving out a word that some run has is what no law lets through. No call but
/// those of `Lattice` takes memory.
pub trait Domain: Lattice {
    /// The size and the words of a value, and what each call answers.
    ghost sets: { WordSets Self };

    /// What the laws ask of the value.
    fn kept(&self)
        ensures { sets.kept self.now };

    /// The one word.
    fn single(size: u32, bits: u64) -> Self
        requires size { IsWordSize size }
        requires fits { bits < 2 ^ size }
        ensures { result ≡ sets.single size bits };

    /// Every word of the size.
    fn whole(size: u32) -> Self
        requires { IsWordSize size }
        ensures { result ≡ sets.whole size };

    /// Whether the word is in the set.
    fn has(&self, bits: u64) -> bool
        ensures { result ≡ sets.has self.now bits };

    /// What the operator gives at words of the sets.
    fn apply(op: Op, sizes: &[u32], args: &[Self]) -> Applied<Self>
        requires typed { IsSome (result_size op sizes.now) }
        requires sized { HaveSizes sets (operand_sizes op sizes.now) args.now }
        ensures { result ≡ sets.applied op sizes.now args.now };

    /// The set without words that are in relation to no word of the other, as far as it can be
    /// told. None only where no word is left.
    fn assume(&self, rel: Rel, other: &Self) -> Option<Self>
        requires { sets.size_of self.now ≡ sets.size_of other.now }
        ensures { result ≡ sets.assumed rel self.now other.now };

    /// The set where the word is this one. None only where it is not in the set.
    fn only(&self, bits: u64) -> Option<Self>
        ensures { result ≡ sets.only self.now bits };

    ghost is_sets: { IsWordSets Self Self.order sets };
}
