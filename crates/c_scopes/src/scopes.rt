//! Scopes in a row.

ghost use Rattle.std.specs.Prelude.{◌≡◌, ◌≤◌, ◌-◌, [], length, drop, reverse, OnOk, OnErr};
ghost use Rattle.std.specs.Option.{option_map};
ghost use Rattle.c_unit.specs.Units.{unit_of};
ghost use Rattle.c_rules.specs.Names.{look_up, is_declared, innermost};
ghost use Rattle.c_scopes.specs.Cuts.{IsCut, begun, scopes_from};
ghost use Rattle.c_scopes.specs.Views.{Known, bound_of, entry_of, entered, declared_in, left};

use crate::entry::{Bound, Entry};
use crate::row::Row;
use crate::unit_tokens::Words;
use c_unit::CUnit;
use std::alloc::{AllocError, Global};
use std::marker::Model;

/// The scopes in a row around a part of a unit, seen from the innermost outward, with the words of the unit.
#[derive(Drop)]
pub struct Scopes<'a> {
    row: Row<'a>,
    starts: Vec<usize>,
}

impl<'a> Model for Scopes<'a> {
    ghost Value = { Known };

    ghost view = { λ scopes. record { words = scopes.row.words; scopes = scopes_from scopes.row.names (reverse scopes.starts.items) } };

    ghost invariant = { λ scopes. IsCut (length scopes.row.names) (reverse scopes.starts.items) };
}

impl<'a> Scopes<'a> {
    /// No scope yet.
    pub fn new(alloc: Global, unit: &'a CUnit) -> Self
        ensures { result ≡ record { words = (unit_of unit.now).words; scopes = [] } }
    {
        Scopes {
            row: Row::new(alloc, unit),
            starts: Vec::new(alloc),
        }
    }

    /// The words of the unit. Takes no memory.
    pub fn words(&self) -> &Words<'a>
        ensures { result.now ≡ self.now.words }
    {
        self.row.words()
    }

    /// What the name at the token means: the innermost scope that has it says. Takes no memory.
    pub fn look_up(&self, token: u32) -> Option<&Entry>
        ensures { option_map (λ e. entry_of e.now) result ≡ look_up self.now.words self.now.scopes token }
    {
        self.row.find(token)
    }

    /// Whether the name at the token stands in the innermost scope. Takes no memory.
    pub fn is_declared(&self, token: u32) -> bool
        ensures { result ≡ is_declared self.now.words (innermost self.now.scopes) token }
    {
        match self.starts.last() {
            None => false,
            Some(start) => match self.row.place(token) {
                None => false,
                Some(place) => *start <= place,
            },
        }
    }

    /// A scope more, inside the others, without names. Where memory runs out all is as it was.
    pub fn enter(&mut self) -> Result<(), AllocError>
        ensures { OnOk result (self.new ≡ entered self.old) }
    {
        self.starts.push(self.row.len())?;
        Ok(())
    }

    /// One name more in the innermost scope; where there is none, in a first one.
    pub fn declare(&mut self, token: u32, bound: Bound) -> Result<(), AllocError>
        ensures { OnOk result (self.new ≡ declared_in (record { token = token; bound = bound_of bound }) self.old) }
    {
        begin(&mut self.starts)?;
        self.row.push(token, bound)?;
        Ok(())
    }

    /// The innermost scope is left, with its names, if there is one.
    pub fn leave(&mut self) -> Result<(), AllocError>
        ensures { OnOk result (self.new ≡ left self.old) }
    {
        let Some(start) = self.starts.last() else {
            return Ok(());
        };
        let start = *start;
        shorten(&mut self.row, start)?;
        self.starts.pop();
        Ok(())
    }
}

// Takes the newest names back, as long as there are more than so many.
fn shorten(row: &mut Row<'_>, count: usize) -> Result<(), AllocError>
    ensures words { row.new.words ≡ row.old.words }
    ensures enough { count ≤ length row.old.names → count ≤ length row.new.names }
    ensures kept { OnOk result (row.new.names ≡ drop (length row.old.names - count) row.old.names) }
{
    while row.len() > count {
        row.pop()?;
    }
    Ok(())
}

// A first scope begins, where there is none.
fn begin(starts: &mut Vec<usize>) -> Result<(), AllocError>
    ensures begun { OnOk result (reverse starts.new.items ≡ begun (reverse starts.old.items)) }
    ensures unchanged { OnErr result (starts.new.items ≡ starts.old.items) }
{
    if starts.is_empty() {
        starts.push(0)?;
    }
    Ok(())
}
