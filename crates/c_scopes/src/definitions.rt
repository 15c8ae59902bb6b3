//! All definitions of a unit.

ghost use Rattle.std.specs.Prelude.{◌≡◌, take, reverse, slice_index_or, IfOk};
ghost use Rattle.c_unit.specs.Units.{unit_of};
ghost use Rattle.c_rules.specs.Names.{text_at};
ghost use Rattle.c_rules.specs.Calls.{is_defined};
ghost use Rattle.c_rules.specs.Units.{definitions};
ghost use Rattle.c_rules.specs.Recursion.{number_at};
ghost use Rattle.c_scopes.specs.Numbers.{Made, number_named};
ghost use Rattle.c_scopes.specs.Table.{IsTableOf};

use crate::made::names_of;
use crate::table::table_of;
use crate::unit_tokens::Words;
use c_unit::CUnit;
use indexmap::IndexMap;
use std::alloc::{AllocError, Global};
use std::marker::Model;

/// The functions that are defined in a unit, in order, seen as their names, with the words of the unit.
#[derive(Drop)]
pub struct Definitions<'a> {
    words: Words<'a>,
    names: Vec<u32>,
    table: IndexMap<&'a [u8], usize>,
}

impl<'a> Model for Definitions<'a> {
    ghost Value = { Made };

    ghost view = { λ all. record { words = all.words; names = all.names.items } };

    ghost invariant = { λ all. IsTableOf all.words all.names.items all.table };
}

impl<'a> Definitions<'a> {
    /// The definitions of this unit.
    pub fn of(alloc: Global, unit: &'a CUnit) -> Result<Self, AllocError>
        ensures { IfOk result
            (λ all. all
            ≡ record { words = (unit_of unit.now).words; names = definitions (unit_of unit.now).externals }) }
    {
        let words = Words::of(unit);
        let names = names_of(alloc, &unit.externals)?;
        let table = table_of(alloc, &words, &names)?;
        Ok(Definitions {
            words,
            names,
            table,
        })
    }

    /// The names, as tokens. Takes no memory.
    pub fn names(&self) -> &[u32]
        ensures { result.now ≡ self.now.names }
    {
        self.names.as_slice()
    }

    /// The text of the name of a function by its number; past the last one it is that of the first token. Takes no
    /// memory.
    pub fn text_of(&self, number: u32) -> &'a [u8]
        ensures { result.now ≡ text_at self.now.words (slice_index_or self.now.names number 0) }
    {
        let token = self.names.get(number as usize).copied().unwrap_or(0);
        self.words.text_at(token)
    }

    /// The number of the function of this name. Takes no memory.
    pub fn number_named(&self, name: &[u8]) -> Option<usize>
        ensures { result ≡ number_named self.now.words self.now.names name.now }
    {
        self.table.get(name).copied()
    }

    /// The number of the function whose name stands at the token. Takes no memory.
    pub fn number_at(&self, token: u32) -> Option<usize>
        ensures { result ≡ number_at self.now.words self.now.names token }
    {
        self.number_named(self.words.text_at(token))
    }

    /// Whether some function of the name at the token is defined. Takes no memory.
    pub fn is_defined(&self, token: u32) -> bool
        ensures { result ≡ is_defined self.now.words self.now.names token }
    {
        self.number_at(token).is_some()
    }

    /// Whether one of the first `count` definitions is of the name at the token. Takes no memory.
    pub fn is_defined_before(&self, count: usize, token: u32) -> bool
        ensures { result ≡ is_defined self.now.words (reverse (take count self.now.names)) token }
    {
        match self.number_at(token) {
            Some(number) => number < count,
            None => false,
        }
    }
}
