//! Frames and their initial values.

ghost use Rattle.std.specs.Prelude.{map};
ghost use Rattle.alf_program.specs.Tree.{allocation_of, initial_of};
ghost use Rattle.alf_reader.specs.Grammar.{alloc, allocs, init, inits};
ghost use Rattle.alf_reader.specs.Reading.{Reads};

use crate::fault::Departure;
use crate::parts::{Allocs, Inits};
use crate::reader::Reader;
use alf_program::{Alloc, Init};
use grammar::many;

impl<'a> Reader<'a> {
    /// `{ alloc 32 NAME BITS }`.
    #[tactic(auto, unfolding(crate::specs::Grammar::alloc))]
    pub fn alloc(&mut self) -> Result<Alloc, Departure<'a>>
        ensures { Reads alloc allocation_of result self.old self.new }
    {
        self.opening()?;
        self.one_frame()?;
        self.word(b"alloc")?;
        self.fixed(32)?;
        let name = self.name()?;
        let bits = self.bits()?;
        self.closing()?;
        Ok(Alloc { name, bits })
    }

    /// `{ LIST ALLOC* }`.
    #[tactic(auto, unfolding(crate::specs::Grammar::allocs))]
    pub fn allocs(&mut self, list: &[u8]) -> Result<Vec<Alloc>, Departure<'a>>
        ensures { Reads (allocs list.now) (λ x. map allocation_of x.items) result self.old self.new }
    {
        self.begin(list)?;
        let allocs = many(self.alloc, &Allocs, self)?;
        self.closing()?;
        Ok(allocs)
    }

    /// `{ init { ref NAME OFFSET } NUM }`.
    #[tactic(auto, unfolding(crate::specs::Grammar::init))]
    pub fn init(&mut self) -> Result<Init, Departure<'a>>
        ensures { Reads init initial_of result self.old self.new }
    {
        self.begin(b"init")?;
        let (name, offset) = self.ref_place()?;
        let num = self.num()?;
        self.closing()?;
        Ok(Init { name, offset, num })
    }

    /// `{ inits INIT* }`.
    #[tactic(auto, unfolding(crate::specs::Grammar::inits))]
    pub fn inits(&mut self) -> Result<Vec<Init>, Departure<'a>>
        ensures { Reads inits (λ x. map initial_of x.items) result self.old self.new }
    {
        self.begin(b"inits")?;
        let inits = many(self.alloc, &Inits, self)?;
        self.closing()?;
        Ok(inits)
    }
}
