//! Names: references to frames and labels, labels, and addresses.

ghost use Rattle.grammar.specs.Rule.{many, maybe};
ghost use Rattle.alf_reader.specs.Grammar.{opens, reference, references, offset, zero_offset, label_tail, label};
ghost use Rattle.alf_reader.specs.Grammar.{address_tail, address, ref_place, at_most};
ghost use Rattle.alf_reader.specs.Reading.{Reads};

use crate::fault::Departure;
use crate::parts::References;
use crate::reader::Reader;
use flow_base::Name;
use grammar::many;

const MOST_OFFSET: u64 = 0xffff_ffff;

impl<'a> Reader<'a> {
    /// `{ WORD 32 NAME }`, a reference of this word.
    #[tactic(auto, unfolding(crate::specs::Grammar::reference))]
    pub fn reference(&mut self, word: &[u8]) -> Result<Name, Departure<'a>>
        ensures { Reads (reference word.now) (λ x. x) result self.old self.new }
    {
        self.begin(word)?;
        self.fixed(32)?;
        let name = self.name()?;
        self.closing()?;
        Ok(name)
    }

    fn many_references(&mut self, word: &[u8]) -> Result<Vec<Name>, Departure<'a>>
        ensures { Reads (many opens (reference word.now)) (λ x. x.items) result self.old self.new }
    {
        let names = many(self.alloc, &References(word), self)?;
        Ok(names)
    }

    /// `{ LIST { WORD 32 NAME }* }`.
    #[tactic(auto, unfolding(crate::specs::Grammar::references))]
    pub fn references(&mut self, list: &[u8], word: &[u8]) -> Result<Vec<Name>, Departure<'a>>
        ensures { Reads (references list.now word.now) (λ x. x.items) result self.old self.new }
    {
        self.begin(list)?;
        let names = self.many_references(word)?;
        self.closing()?;
        Ok(names)
    }

    /// `{ dec_unsigned 32 N }`, an offset in bytes.
    #[tactic(auto, unfolding(crate::specs::Grammar::offset))]
    pub fn offset(&mut self) -> Result<u32, Departure<'a>>
        ensures { Reads offset (λ x. x) result self.old self.new }
    {
        self.begin(b"dec_unsigned")?;
        self.fixed(32)?;
        let offset = self.at_most_offset()?;
        self.closing()?;
        Ok(offset)
    }

    fn at_most_offset(&mut self) -> Result<u32, Departure<'a>>
        ensures { Reads (at_most 4294967295) (λ x. x) result self.old self.new }
    {
        let offset = self.at_most(MOST_OFFSET)?;
        Ok(offset as u32)
    }

    #[tactic(auto, unfolding(crate::specs::Grammar::zero_offset))]
    fn zero_offset(&mut self) -> Result<(), Departure<'a>>
        ensures { Reads zero_offset (λ x. x) result self.old self.new }
    {
        self.begin(b"dec_unsigned")?;
        self.fixed(32)?;
        self.fixed(0)?;
        self.closing()?;
        Ok(())
    }

    /// A label after its word.
    #[tactic(auto, unfolding(crate::specs::Grammar::label_tail))]
    pub fn label_tail(&mut self) -> Result<Name, Departure<'a>>
        ensures { Reads label_tail (λ x. x) result self.old self.new }
    {
        self.fixed(32)?;
        let name = self.reference(b"lref")?;
        self.zero_offset()?;
        self.closing()?;
        Ok(name)
    }

    /// A label, from its brace on.
    #[tactic(auto, unfolding(crate::specs::Grammar::label))]
    pub fn label(&mut self) -> Result<Name, Departure<'a>>
        ensures { Reads label (λ x. x) result self.old self.new }
    {
        self.begin(b"label")?;
        let name = self.label_tail()?;
        Ok(name)
    }

    /// The frame and the offset of an address after its word.
    #[tactic(auto, unfolding(crate::specs::Grammar::address_tail))]
    pub fn address_tail(&mut self) -> Result<(Name, u32), Departure<'a>>
        ensures { Reads address_tail (λ x. x) result self.old self.new }
    {
        self.fixed(32)?;
        let name = self.reference(b"fref")?;
        let offset = self.offset()?;
        self.closing()?;
        Ok((name, offset))
    }

    #[tactic(auto, unfolding(crate::specs::Grammar::address))]
    fn address(&mut self) -> Result<(Name, u32), Departure<'a>>
        ensures { Reads address (λ x. x) result self.old self.new }
    {
        self.begin(b"addr")?;
        let address = self.address_tail()?;
        Ok(address)
    }

    /// An address, where a brace opens.
    pub fn maybe_address(&mut self) -> Result<Option<(Name, u32)>, Departure<'a>>
        ensures { Reads (maybe opens address) (λ x. x) result self.old self.new }
    {
        if !self.at_open() {
            return Ok(None);
        }
        let address = self.address()?;
        Ok(Some(address))
    }

    /// `{ ref NAME OFFSET }`.
    #[tactic(auto, unfolding(crate::specs::Grammar::ref_place))]
    pub fn ref_place(&mut self) -> Result<(Name, u32), Departure<'a>>
        ensures { Reads ref_place (λ x. x) result self.old self.new }
    {
        self.begin(b"ref")?;
        let name = self.name()?;
        let offset = self.offset()?;
        self.closing()?;
        Ok((name, offset))
    }
}
