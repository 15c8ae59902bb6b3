//! Numbers with a size.

ghost use Rattle.std.specs.Prelude.{◌≡◌, ◌≤◌, ◌<◌, ◌-◌, ◌^◌, IfOk, IfSome};
ghost use Rattle.grammar.specs.Rule.{maybe};
ghost use Rattle.alf_reader.specs.Grammar.{opens, at_most, unsigned, minus, signed_bits, signed, num_tail, num};
ghost use Rattle.alf_reader.specs.Reading.{Reads};

use crate::fault::{Departure, outside};
use crate::reader::Reader;
use alf_ops::negated;
use alf_program::Num;

// The greatest word of this size.
fn greatest(size: u32) -> u64
    requires { size ≤ 64 }
    ensures { result ≡ 2 ^ size - 1 }
{
    ((1_u128 << size) - 1) as u64
}

impl<'a> Reader<'a> {
    /// `{ dec_unsigned SIZE N }` after its word.
    #[tactic(auto, unfolding(crate::specs::Grammar::unsigned))]
    pub fn unsigned(&mut self) -> Result<Num, Departure<'a>>
        ensures { Reads unsigned (λ x. x) result self.old self.new }
    {
        let size = self.size()?;
        let bits = self.at_most(greatest(size))?;
        self.closing()?;
        Ok(Num {
            signed: false,
            size,
            bits,
        })
    }

    // `{ minus N }`, for a size from 1 to 64.
    #[tactic(auto, unfolding(crate::specs::Grammar::minus))]
    fn minus(&mut self, size: u32) -> Result<u64, Departure<'a>>
        requires { (1 ≤ size) × (size ≤ 64) }
        ensures exact { Reads (minus size) (λ x. x) result self.old self.new }
        ensures near { IfOk result (λ distance. distance ≤ 2 ^ (size - 1)) }
    {
        self.begin(b"minus")?;
        let distance = self.at_most(greatest(size - 1) + 1)?;
        self.closing()?;
        Ok(distance)
    }

    fn maybe_minus(&mut self, size: u32) -> Result<Option<u64>, Departure<'a>>
        requires { (1 ≤ size) × (size ≤ 64) }
        ensures exact { Reads (maybe opens (minus size)) (λ x. x) result self.old self.new }
        ensures near { IfOk result (λ found. IfSome found (λ distance. distance ≤ 2 ^ (size - 1))) }
    {
        if !self.at_open() {
            return Ok(None);
        }
        let distance = self.minus(size)?;
        Ok(Some(distance))
    }

    #[tactic(auto, unfolding(crate::specs::Grammar::signed_bits), using(crate::proofs::SignedLemmas::half_below))]
    fn signed_bits(&mut self, size: u32, minus: Option<u64>) -> Result<u64, Departure<'a>>
        requires sized { (1 ≤ size) × (size ≤ 64) }
        requires near { IfSome minus (λ distance. distance ≤ 2 ^ (size - 1)) }
        ensures { Reads (signed_bits size minus) (λ x. x) result self.old self.new }
    {
        match minus {
            Some(distance) => Ok(negated(size, distance)),
            None => self.at_most(greatest(size - 1)),
        }
    }

    /// `{ dec_signed SIZE N }` or `{ dec_signed SIZE { minus N } }` after its word.
    #[tactic(auto, unfolding(crate::specs::Grammar::signed))]
    pub fn signed(&mut self) -> Result<Num, Departure<'a>>
        ensures { Reads signed (λ x. x) result self.old self.new }
    {
        let size = self.size()?;
        let minus = self.maybe_minus(size)?;
        let bits = self.signed_bits(size, minus)?;
        self.closing()?;
        Ok(Num {
            signed: true,
            size,
            bits,
        })
    }

    /// A number.
    #[tactic(auto, unfolding(crate::specs::Grammar::num, crate::specs::Grammar::num_tail, crate::specs::Grammar::unknown))]
    pub fn num(&mut self) -> Result<Num, Departure<'a>>
        ensures { Reads num (λ x. x) result self.old self.new }
    {
        self.opening()?;
        let word = self.some_word()?;
        if word.text == b"dec_unsigned".as_slice() {
            self.unsigned()
        } else if word.text == b"dec_signed".as_slice() {
            self.signed()
        } else {
            Err(outside(word))
        }
    }
}
