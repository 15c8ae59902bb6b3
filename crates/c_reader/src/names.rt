//! Which functions are declared.

ghost use Rattle.std.specs.Prelude.{◌≡◌, ℕ, Bool, List, [], ◌∷◌, ◌++◌, map, OnOk};
ghost use Rattle.c_grammar.specs.Tokens.{gives_value};
ghost use Rattle.c_reader.specs.Names.{known_of, IsTableOf};

use indexmap::IndexMap;
use std::alloc::{AllocError, Global};
use std::marker::Model;

/// A function that is declared: its name, and whether it gives a value.
#[derive(Clone, Copy)]
struct Known<'a> {
    name: &'a [u8],
    gives: bool,
}

/// The functions that are declared, in order, with a table of what the latest declaration of each name
/// says. Seen as their names, each with whether it gives a value.
#[derive(Drop)]
pub struct Names<'a> {
    list: Vec<Known<'a>>,
    table: IndexMap<&'a [u8], bool>,
}

impl<'a> Model for Names<'a> {
    ghost Value = { List (List ℕ × Bool) };

    ghost view = { λ names. map known_of names.list.items };

    ghost invariant = { λ names. IsTableOf (map known_of names.list.items) names.table };
}

impl<'a> Names<'a> {
    /// No function is declared yet.
    pub fn new(alloc: Global) -> Self
        ensures { result ≡ [] }
    {
        Names {
            list: Vec::new(alloc),
            table: IndexMap::new(alloc),
        }
    }

    /// One more declaration. Where memory runs out nothing is declared.
    pub fn declare(&mut self, name: &'a [u8], gives: bool) -> Result<(), AllocError>
        ensures { OnOk result (self.new ≡ self.old ++ (name.now, gives) ∷ []) }
    {
        self.list.reserve(1)?;
        self.table.insert(name, gives)?;
        self.list.push_reserved(Known { name, gives });
        Ok(())
    }

    /// Whether the latest declaration with this name gives a value. Takes no memory.
    pub fn gives_value(&self, name: &[u8]) -> bool
        ensures { result ≡ gives_value name.now self.now }
    {
        self.table.get(name).copied().unwrap_or(false)
    }
}
