//! The values.

ghost use Rattle.std.specs.Prelude.{◌≡◌, ◌≤◌, ◌<◌, ◌^◌, ◌-◌, IsTrue, pos, neg_ℤ, ◌+ℤ◌, ◌-ℤ◌, ◌≤ℤ◌, ◌<ℤ◌, unsigned_abs};
ghost use Rattle.domain_core.specs.WordSets.{IsWordSize};
ghost use Rattle.progressions.specs.Progressions.{IsProgression, IsPlaced, full, half};
ghost use Rattle.progressions.specs.Parts.{ArePieces};
ghost use Rattle.progressions.specs.Limits.{IsSmall};
ghost use Rattle.strided_rules.specs.Strides.{Stride, IsStride, norm as norm_of, one_word as one_word_of};
ghost use Rattle.strided_rules.specs.Strides.{every_word as every_word_of, joined as joined_of};
ghost use Rattle.strided_rules.specs.Members.{unsigned_of, signed_of, is_one as is_one_of, word_of};

use crate::turns::{signed_pieces, unsigned_pieces};
use progressions::{Pieces, Progression};
use std::marker::Model;
use strided_operators::{joined, normed, power, whole};
use whole_numbers::Whole;

/// A set of words of one size: n modulo 2 to the size for n = lo, lo + step, .., hi, in normal form.
///
/// Contracts see the size and the progression.
#[derive(Clone, Copy, Debug, PartialEq, Eq, Drop)]
pub struct Strided {
    size: u32,
    lo: i64,
    width: u64,
    step: u64,
}

impl Model for Strided {
    ghost Value = { Stride };

    ghost view = { λ s. record { size = s.size; numbers = record { lo = s.lo; hi = s.lo +ℤ pos s.width; step = pos s.step } } };

    ghost inverse = { λ x. record {
      size = x.size;
      lo = x.numbers.lo;
      width = unsigned_abs (x.numbers.hi -ℤ x.numbers.lo);
      step = unsigned_abs x.numbers.step;
    } };

    ghost invariant = { λ s. IsStride (record { size = s.size; numbers = record { lo = s.lo; hi = s.lo +ℤ pos s.width; step = pos s.step } }) };
}

/// The word lies in the signed range, as a number from 0 on.
fn is_low(size: u32, bits: u64) -> bool
    requires { IsWordSize size }
    ensures { IsTrue result → bits < 2 ^ (size - 1) }
{
    bits >> (size - 1) == 0
}

impl Strided {
    /// The value of a progression in normal form.
    pub(crate) fn of(size: u32, numbers: Progression) -> Strided
        requires size { IsWordSize size }
        requires placed { IsPlaced size numbers }
        ensures { result ≡ record { size = size; numbers = numbers } }
    {
        Strided {
            size,
            lo: numbers.lo.number() as i64,
            width: (numbers.hi - numbers.lo).word(),
            step: numbers.step.word(),
        }
    }

    /// How many bits its words have.
    pub fn size(self) -> u32
        ensures value { result ≡ self.size }
        ensures size { IsWordSize result }
    {
        self.size
    }

    /// The progression of its low end, its width and its step.
    fn progression(self) -> Progression
        ensures value { result ≡ self.numbers }
        ensures stride { IsStride self }
    {
        let lo = Whole::of(self.lo as i128);
        Progression {
            lo,
            hi: lo + Whole::of_word(self.width),
            step: Whole::of_word(self.step),
        }
    }

    /// Its progression, whose ends are far from the limits of the machine.
    pub fn numbers(self) -> Progression
        ensures value { result ≡ self.numbers }
        ensures stride { IsStride self }
        ensures small { IsSmall result }
    {
        self.progression()
    }

    /// The least number.
    pub fn lo(self) -> i128
        ensures { result ≡ self.numbers.lo }
    {
        self.lo as i128
    }

    /// The greatest number.
    pub fn hi(self) -> i128
        ensures { result ≡ self.numbers.hi }
    {
        self.lo as i128 + self.width as i128
    }

    /// The distance of two numbers that follow one another; 0 where there is one number.
    pub fn step(self) -> i128
        ensures { result ≡ self.numbers.step }
    {
        self.step as i128
    }

    /// The numbers lo, lo + step, .., hi modulo 2 to the size, in normal form.
    pub fn norm(size: u32, lo: i128, hi: i128, step: i128) -> Strided
        requires size { IsWordSize size }
        requires progression { IsProgression (record { lo = lo; hi = hi; step = step }) }
        requires low { neg_ℤ (pos (2 ^ 126)) ≤ℤ lo }
        requires high { hi <ℤ pos (2 ^ 126) }
        ensures { result ≡ record { size = size; numbers = norm_of size (record { lo = lo; hi = hi; step = step }) } }
    {
        let numbers = Progression {
            lo: Whole::of(lo),
            hi: Whole::of(hi),
            step: Whole::of(step),
        };
        Strided::of(size, normed(size, &numbers))
    }

    /// Every word of the size.
    pub fn every_word(size: u32) -> Strided
        requires { IsWordSize size }
        ensures { result ≡ every_word_of size }
    {
        Strided::of(size, whole(size))
    }

    /// The one word, a number of the signed range, which is in normal form as it is.
    fn low_word(size: u32, bits: u64) -> Strided
        requires size { IsWordSize size }
        requires low { bits < 2 ^ (size - 1) }
        ensures { result ≡ one_word_of size bits }
    {
        Strided {
            size,
            lo: bits as i64,
            width: 0,
            step: 0,
        }
    }

    /// The one word. Most lie in the signed range.
    pub fn one_word(size: u32, bits: u64) -> Strided
        requires { IsWordSize size }
        ensures { result ≡ one_word_of size bits }
    {
        if is_low(size, bits) {
            return Strided::low_word(size, bits);
        }
        let lone = Progression::lone(Whole::of_word(bits));
        Strided::of(size, normed(size, &lone))
    }

    /// The words of both, of one size.
    pub fn join(self, other: Strided) -> Strided
        requires { self.size ≡ other.size }
        ensures { result ≡ joined_of self other }
    {
        let size = self.size();
        let first = self.numbers();
        let second = other.numbers();
        Strided::of(size, joined(size, &first, &second))
    }

    /// Its words as numbers from 0 on.
    #[tactic(auto, using(strided_rules::specs::MemberLaws::of_unsigned))]
    pub(crate) fn unsigned(self) -> Pieces
        ensures value { result ≡ unsigned_of self }
        ensures stride { IsStride self }
        ensures are { ArePieces (pos 0) (full self.size -ℤ pos 1) result }
    {
        let numbers = self.numbers();
        unsigned_pieces(self.size(), &numbers)
    }

    /// Its words as numbers of the signed range.
    #[tactic(auto, using(strided_rules::specs::MemberLaws::of_signed))]
    pub(crate) fn signed(self) -> Pieces
        ensures value { result ≡ signed_of self }
        ensures stride { IsStride self }
        ensures are { ArePieces (neg_ℤ (half self.size)) (half self.size -ℤ pos 1) result }
    {
        let numbers = self.numbers();
        signed_pieces(self.size(), &numbers)
    }

    /// It has one member.
    pub fn is_one(self) -> bool
        ensures { result ≡ is_one_of self }
    {
        self.width == 0
    }

    /// The word of its low end.
    #[tactic(auto, using(flat_domain::specs::OperatorSizeLaws::word_below))]
    pub fn word(self) -> u64
        ensures value { result ≡ word_of self }
        ensures fits { result < 2 ^ self.size }
    {
        let lo = self.numbers().lo;
        if Whole::of(0).at_most(lo) {
            lo.word()
        } else {
            lo.rest(power(self.size())).word()
        }
    }
}
