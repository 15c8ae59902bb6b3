//! Names in a row, with a table of the newest of each name.

ghost use Rattle.std.specs.Prelude.{◌≡◌, ℕ, List, [], ◌∷◌, length, OnOk, OnErr, if◌then◌else◌};
ghost use Rattle.std.specs.Option.{option_map};
ghost use Rattle.std.specs.Str.{bytes_eq};
ghost use Rattle.c_unit.specs.Units.{unit_of};
ghost use Rattle.c_rules.specs.Names.{named, text_at};
ghost use Rattle.c_scopes.specs.Views.{bound_of, entry_of, others};
ghost use Rattle.c_scopes.specs.Rows.{Row, IsRow, found, latest, newest};

use crate::entry::{Bound, Entry};
use crate::unit_tokens::Words;
use c_unit::CUnit;
use indexmap::IndexMap;
use std::alloc::{AllocError, Global};
use std::marker::Model;

// A name, and the place of the newest one before it that is the same.
#[derive(Drop)]
struct Held {
    entry: Entry,
    hidden: Option<usize>,
}

/// Names in a row, seen newest first, with the words of the unit.
#[derive(Drop)]
pub struct Row<'a> {
    words: Words<'a>,
    names: Vec<Held>,
    table: IndexMap<&'a [u8], usize>,
}

impl<'a> Model for Row<'a> {
    ghost Value = { Row };

    ghost view = { λ row. record { words = row.words; names = newest row.names.items } };

    ghost invariant = { λ row. IsRow row.words row.names.items row.table };
}

impl<'a> Row<'a> {
    /// No names.
    pub fn new(alloc: Global, unit: &'a CUnit) -> Self
        ensures { result ≡ record { words = (unit_of unit.now).words; names = [] } }
    {
        Row {
            words: Words::of(unit),
            names: Vec::new(alloc),
            table: IndexMap::new(alloc),
        }
    }

    /// The words of the unit.
    pub fn words(&self) -> &Words<'a>
        ensures { result.now ≡ self.now.words }
    {
        &self.words
    }

    /// How many names there are.
    pub fn len(&self) -> usize
        ensures { result ≡ length self.now.names }
    {
        self.names.len()
    }

    /// The place of the newest entry of the name at the token, counted from the oldest one.
    pub fn place(&self, token: u32) -> Option<usize>
        ensures { result ≡ latest self.now.words self.now.names (text_at self.now.words token) }
    {
        self.table.get(self.words.text_at(token)).copied()
    }

    /// The newest entry of the name at the token.
    pub fn find(&self, token: u32) -> Option<&Entry>
        ensures { option_map (λ e. entry_of e.now) result ≡ named self.now.words token self.now.names }
    {
        match self.place(token) {
            None => None,
            Some(place) => match self.names.get(place) {
                None => None,
                Some(held) => Some(&held.entry),
            },
        }
    }

    /// One name more. Where memory runs out all is as it was.
    pub fn push(&mut self, token: u32, bound: Bound) -> Result<(), AllocError>
        ensures done { OnOk result
            (self.new
            ≡ record {
              words = self.old.words;
              names = record { token = token; bound = bound_of bound } ∷ self.old.names;
            }) }
        ensures unchanged { OnErr result (self.new ≡ self.old) }
    {
        let name = self.words.text_at(token);
        self.names.reserve(1)?;
        let place = self.names.as_slice().len();
        let hidden = self.table.insert(name, place)?;
        self.names.push_reserved(Held {
            entry: Entry { token, bound },
            hidden,
        });
        Ok(())
    }

    /// One name less, if there is one. Where memory runs out all is as it was.
    pub fn pop(&mut self) -> Result<(), AllocError>
        ensures done { OnOk result (self.new ≡ record { words = self.old.words; names = others self.old.names }) }
        ensures unchanged { OnErr result (self.new ≡ self.old) }
    {
        let Some(held) = self.names.last() else {
            return Ok(());
        };
        let name = self.words.text_at(held.entry.token);
        put_back(&mut self.table, name, held.hidden)?;
        self.names.pop();
        Ok(())
    }
}

// What stood under the name before stands there again, if anything did.
fn put_back<'a>(
    table: &mut IndexMap<&'a [u8], usize>,
    name: &'a [u8],
    hidden: Option<usize>,
) -> Result<(), AllocError>
    ensures put { OnOk result
        ((other : List ℕ)
        → found table.new other ≡ (if bytes_eq name.now other then hidden else found table.old other)) }
    ensures unchanged { OnErr result ((other : List ℕ) → found table.new other ≡ found table.old other) }
{
    match hidden {
        Some(outer) => {
            table.insert(name, outer)?;
        }
        None => {
            table.swap_remove(name);
        }
    }
    Ok(())
}
