//! Lists.

ghost use Rattle.std.specs.Prelude.{◌≡◌, ◌++◌, ◌∷◌, ◌+◌, ◌<◌, ◌≤◌, [], suc, length, map, take, drop, OnOk, IfOk};
ghost use Rattle.std.specs.Prelude.{slice_get, Some};
ghost use Rattle.worklist.specs.Least.{IsFirstLeast};

use crate::Keyed;
use crate::entry::Entry;
use crate::halves::{element, first_of, part_at};
use crate::later::{least_later, put_first};
use std::alloc::{AllocError, Global};
use std::marker::Model;

/// A list of elements. After want of memory its elements are not known.
///
/// It stands in two parts. Where they meet, elements are put in and taken out in constant time, and
/// to go there takes time by the elements between. Of each part the place of the first least is kept.
#[derive(Drop)]
pub struct Line<X: Keyed> {
    earlier: Vec<Entry<X>>,
    later: Vec<Entry<X>>,
}

impl<X: Keyed> Model for Line<X> {
    ghost use Rattle.std.specs.Prelude.{List, reverse};
    ghost use Rattle.worklist.specs.Lines.{line_of, AreFirst, AreLeast};

    ghost Value = { List X };

    ghost view = { λ line. line_of line.earlier.items line.later.items };

    ghost invariant = { λ line. AreFirst X.key_of (reverse line.earlier.items) × AreLeast X.key_of (reverse line.later.items) };
}

/// An element in a room of its own.
fn boxed<X: Drop>(alloc: Global, element: X) -> Result<Box<X>, AllocError>
    ensures { IfOk result (λ boxed. boxed.value ≡ element) }
{
    match Box::new(alloc, element) {
        Ok(boxed) => Ok(boxed),
        Err(_) => Err(AllocError),
    }
}

impl<X: Keyed + Drop> Line<X> {
    /// The list of one element.
    pub fn of_one(alloc: Global, element: X) -> Result<Line<X>, AllocError>
        ensures { IfOk result (λ line. line ≡ element ∷ []) }
    {
        let mut later = Vec::new(alloc);
        put_first(&mut later, boxed(alloc, element)?)?;
        Ok(Line {
            earlier: Vec::new(alloc),
            later,
        })
    }

    /// How many elements there are.
    pub fn len(&self) -> usize
        ensures { result ≡ length self.now }
    {
        self.earlier.len() + self.later.len()
    }

    /// The element at a place.
    pub fn at(&self, place: usize) -> &X
        requires { place < length self.now }
        ensures { slice_get self.now place ≡ Some result.now }
    {
        element(&self.earlier, &self.later, place)
    }

    /// Takes an element out.
    pub fn take(&mut self, place: usize) -> Result<X, AllocError>
        requires { place < length self.old }
        ensures element { IfOk result (λ element. slice_get self.old place ≡ Some element) }
        ensures others { OnOk result (self.new ≡ take place self.old ++ drop (suc place) self.old) }
    {
        part_at(&mut self.earlier, &mut self.later, place)?;
        let Some(entry) = self.later.pop() else {
            unreachable!()
        };
        Ok(Box::into_inner(entry.item))
    }

    /// Puts an element at a place, before those that stood there and after it.
    pub fn put(&mut self, place: usize, element: X) -> Result<(), AllocError>
        requires { place ≤ length self.old }
        ensures { OnOk result (self.new ≡ take place self.old ++ element ∷ drop place self.old) }
    {
        part_at(&mut self.earlier, &mut self.later, place)?;
        let element = boxed(*self.later.allocator(), element)?;
        put_first(&mut self.later, element)
    }

    /// The first place than whose key no other is less. Takes constant time.
    pub fn first_least(&self) -> usize
        requires { 0 < length self.now }
        ensures { IsFirstLeast (map (λ element. X.key_of element) self.now) result }
    {
        first_of(&self.earlier, &self.later)
    }

    /// How far after a place the first least of the elements from there on stands.
    pub fn least_from(&mut self, place: usize) -> Result<usize, AllocError>
        requires { place < length self.old }
        ensures same { OnOk result (self.new ≡ self.old) }
        ensures least { IfOk result
            (λ farther. IsFirstLeast (map (λ element. X.key_of element) (drop place self.old)) farther) }
    {
        part_at(&mut self.earlier, &mut self.later, place)?;
        Ok(least_later(&self.later))
    }
}
