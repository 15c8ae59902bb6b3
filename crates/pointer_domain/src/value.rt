//! The values.

ghost use Rattle.std.specs.Prelude.{◌≡◌, IfOk, IfSome};
ghost use Rattle.pointer_rules.specs.AbstractValues.{AbstractValue, IsAbstract, AreAlike, Words, Places, alone};
ghost use Rattle.pointer_rules.specs.AbstractValues.{either_words as either_words_of, joined as joined_of};
ghost use Rattle.pointer_domain.specs.Rooms.{value_of};

use crate::places::put_all;
use domain_core::Lattice;
use interval_congruence::Strided;
use std::alloc::{AllocError, Global};
use std::marker::Model;

/// Words and pointers, of which some are pointers.
#[derive(Debug, Drop)]
struct Mixed {
    words: Option<Strided>,
    places: Vec<(u32, Strided)>,
}

/// Words alone, as most values are, or all parts, in a room of their own.
#[derive(Debug, Drop)]
enum Kept {
    Words(Strided),
    Mixed(Box<Mixed>),
}

/// Words of one size, and pointers: the offsets in each frame, by ascending frame. There is some word or
/// some pointer.
#[derive(Debug, Drop)]
pub struct AVal {
    kept: Kept,
}

impl Model for AVal {
    ghost use Rattle.pointer_rules.specs.AbstractValues.{AbstractValue, IsAbstract};
    ghost use Rattle.pointer_domain.specs.Rooms.{value_of};

    ghost Value = { AbstractValue };

    ghost view = { λ v. value_of v.kept };

    ghost invariant = { λ v. IsAbstract (value_of v.kept) };
}

/// A room for parts of which some are pointers.
fn in_room(
    alloc: Global,
    words: Option<Strided>,
    places: Vec<(u32, Strided)>,
) -> Result<Kept, AllocError>
    ensures { IfOk result (λ kept. value_of kept ≡ record { words = words; places = places.items }) }
{
    match Box::new(alloc, Mixed { words, places }) {
        Ok(room) => Ok(Kept::Mixed(room)),
        Err(_) => Err(AllocError),
    }
}

/// These words and pointers, in a room of their own where there are pointers.
fn kept_of(
    alloc: Global,
    words: Option<Strided>,
    places: Vec<(u32, Strided)>,
) -> Result<Kept, AllocError>
    ensures { IfOk result (λ kept. value_of kept ≡ record { words = words; places = places.items }) }
{
    let Some(lone) = words else {
        return in_room(alloc, words, places);
    };
    if places.is_empty() {
        return Ok(Kept::Words(lone));
    }
    in_room(alloc, words, places)
}

/// A copy of all parts.
fn copied(alloc: Global, kept: &Kept) -> Result<Kept, AllocError>
    ensures { IfOk result (λ copy. value_of copy ≡ value_of kept.now) }
{
    match kept {
        Kept::Words(words) => Ok(Kept::Words(*words)),
        Kept::Mixed(parts) => {
            let places = Vec::from_slice(alloc, &parts.places)?;
            in_room(alloc, parts.words, places)
        }
    }
}

impl AVal {
    /// These words and no pointer. Takes no memory.
    pub fn word(_alloc: Global, value: Strided) -> AVal
        ensures { result ≡ alone (Words value) }
    {
        // Brings in that their progression has its stride and small numbers.
        let _ = value.numbers();
        AVal {
            kept: Kept::Words(value),
        }
    }

    /// Pointers to the frame at these offsets, in bytes, and no word.
    pub fn pointer(alloc: Global, frame: u32, offset: Strided) -> Result<AVal, AllocError>
        requires { offset.size ≡ 32 }
        ensures { IfOk result (λ value. value ≡ alone (Places frame offset)) }
    {
        // Brings in that their progression has its stride and small numbers.
        let _ = offset.numbers();
        let mut places = Vec::new(alloc);
        places.push((frame, offset))?;
        let kept = in_room(alloc, None, places)?;
        Ok(AVal { kept })
    }

    /// Its words, if there are some.
    pub fn int(&self) -> Option<Strided>
        ensures { result ≡ self.now.words }
    {
        match &self.kept {
            Kept::Words(words) => Some(*words),
            Kept::Mixed(parts) => parts.words,
        }
    }

    /// Its pointers: each frame with its offsets, by ascending frame.
    pub fn at(&self) -> &[(u32, Strided)]
        ensures value { result.now ≡ self.now.places }
        ensures kept { IsAbstract self.now }
    {
        match &self.kept {
            Kept::Words(_) => &[],
            Kept::Mixed(parts) => &parts.places,
        }
    }
}

/// The join of the words where both are there.
fn either_words(a: Option<Strided>, b: Option<Strided>) -> Option<Strided>
    requires { IfSome a (λ x. IfSome b (λ y. x.size ≡ y.size)) }
    ensures { result ≡ either_words_of a b }
{
    match (a, b) {
        (None, b) => b,
        (Some(a), None) => Some(a),
        (Some(a), Some(b)) => Some(a.join(b)),
    }
}

/// The join of both, part by part.
fn joined_parts(alloc: Global, a: &AVal, b: &AVal) -> Result<Kept, AllocError>
    requires { AreAlike a.now b.now }
    ensures { IfOk result (λ kept. value_of kept ≡ joined_of a.now b.now) }
{
    let words = either_words(a.int(), b.int());
    let mut places = Vec::from_slice(alloc, a.at())?;
    put_all(&mut places, b.at())?;
    kept_of(alloc, words, places)
}

impl Lattice for AVal {
    ghost use Rattle.pointer_rules.specs.AbstractValues.{value_order};
    ghost use Rattle.pointer_rules.specs.ValueLaws.{value_is_order};

    ghost order = { value_order };

    ghost is_order = { value_is_order };

    fn copy(&self, alloc: Global) -> Result<Self, AllocError> {
        let kept = copied(alloc, &self.kept)?;
        Ok(AVal { kept })
    }

    fn join(&self, alloc: Global, other: &Self) -> Result<Self, AllocError> {
        let kept = joined_parts(alloc, self, other)?;
        Ok(AVal { kept })
    }
}
