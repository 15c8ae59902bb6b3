//! Numbers of columns, by ascending number.

ghost use Rattle.std.specs.Prelude.{◌≡◌, ◌++◌, ◌∷◌, [], OnOk, get_or};
ghost use Rattle.dual_check.specs.Places.{least_of, past_of};

use std::alloc::{AllocError, Global};
use std::marker::Model;

/// Numbers of columns.
#[derive(Drop)]
pub struct Places {
    places: Vec<u32>,
}

impl Model for Places {
    ghost use Rattle.std.specs.Prelude.{ℕ, List};

    ghost Value = { List ℕ };

    ghost view = { λ s. s.places.items };
}

impl Places {
    /// None.
    pub fn new(alloc: Global) -> Places
        ensures { result ≡ [] }
    {
        Places {
            places: Vec::new(alloc),
        }
    }

    /// Appends a number.
    pub fn push(&mut self, place: u32) -> Result<(), AllocError>
        ensures { OnOk result (self.new ≡ self.old ++ place ∷ []) }
    {
        self.places.push(place)?;
        Ok(())
    }

    /// The numbers.
    fn numbers(&self) -> &[u32]
        ensures { result.now ≡ self.now }
    {
        self.places.as_slice()
    }
}

/// The numbers at a place, or none past the last.
pub fn numbers_at(lists: &[Places], at: u32) -> &[u32]
    ensures { result.now ≡ get_or lists.now at [] }
{
    match lists.get(at as usize) {
        Some(list) => list.numbers(),
        None => &[],
    }
}

/// The first number, where it is below the limit, else the limit.
pub fn least(places: &[u32], limit: u32) -> u32
    ensures { result ≡ least_of places.now limit }
{
    match places.split_first() {
        Some((place, _)) => { if *place < limit { *place } else { limit } }
        None => limit,
    }
}

/// The numbers without the first one where that is this.
pub fn past(places: &[u32], place: u32) -> &[u32]
    ensures { result.now ≡ past_of places.now place }
{
    match places.split_first() {
        Some((first, others)) => { if *first == place { others } else { places } }
        None => places,
    }
}
