//! The ends of spans, of one number each while least and greatest are the same.

ghost use Rattle.std.specs.Prelude.{◌≡◌, ◌≤◌, ◌<◌, ◌↔◌, length, map, replicate, slice_set, IfOk, IsTrue};
ghost use Rattle.recorder_rules.specs.SpanLaws.{spans_of};
ghost use Rattle.recorder_rules.specs.TotalRules.{span_at};
ghost use Rattle.flow_recorders.specs.SmallCounts.{AreSmall};
ghost use Rattle.flow_recorders.specs.SpanLists.{only, spans_in, room_of, IsSingle};

use crate::few::{FewCounts, MOST_COUNTS};
use crate::small::{are_zeros, narrowed};
use crate::spans::span;
use std::alloc::{AllocError, Global};

/// The ends of spans. All forms have room in 32 bytes, beside the lists, which are pieces of memory of their own.
#[derive(Drop)]
pub(crate) enum Ends {
    /// Of so many spans 0, which is both ends.
    Zeros(usize),
    /// Of up to 23 spans the one number that is both ends, below 256.
    Few(FewCounts),
    /// Of each span the one number that is both ends, below 256.
    Narrow(Vec<u8>),
    /// Of each span the one number that is both ends.
    Same(Vec<u32>),
    /// Of each span the least and the greatest number.
    Apart(Vec<(u32, u32)>),
}

/// The span of the number of a byte.
fn of_byte(count: u8) -> (u32, u32)
    ensures { result ≡ only count }
{
    (count as u32, count as u32)
}

/// The ends of spans of these numbers, and how many they are where all are 0.
fn byte_ends(counts: Vec<u8>) -> Ends
    ensures { spans_in result ≡ map only counts.items }
{
    if are_zeros(&counts) {
        return Ends::Zeros(counts.len());
    }
    Ends::Narrow(counts)
}

/// The ends of spans of the same numbers.
fn narrow_copied(alloc: Global, counts: &[u8]) -> Result<Ends, AllocError>
    ensures same { IfOk result (λ ends. spans_in ends ≡ map only counts.now) }
    ensures room { IfOk result (λ ends. room_of ends ≤ length counts.now) }
{
    if are_zeros(counts) {
        return Ok(Ends::Zeros(counts.len()));
    }
    Ok(Ends::Narrow(Vec::from_slice(alloc, counts)?))
}

/// The ends of so many spans of 0 alone, but for one of 1 alone at a place.
pub fn visited_once(alloc: Global, count: usize, i: usize) -> Result<Ends, AllocError>
    requires { i < count }
    ensures { IfOk result (λ ends. spans_in ends ≡ slice_set (replicate count (0, 0)) i (1, 1)) }
{
    let mut counts = vec![in alloc; 0u8; count]?;
    counts[i] = 1;
    Ok(Ends::Narrow(counts))
}

/// The ends of spans of numbers below 256.
pub fn small_ends(alloc: Global, counts: &[u32]) -> Result<Ends, AllocError>
    requires { AreSmall counts.now }
    ensures { IfOk result (λ ends. spans_in ends ≡ map only counts.now) }
{
    if counts.len() <= MOST_COUNTS {
        return Ok(Ends::Few(FewCounts::of(counts)));
    }
    let bytes = narrowed(alloc, counts)?;
    Ok(byte_ends(bytes))
}

impl Ends {
    /// How many spans there are.
    pub fn len(&self) -> usize
        ensures { result ≡ length (spans_in self.now) }
    {
        match self {
            Ends::Zeros(count) => *count,
            Ends::Few(counts) => counts.as_slice().len(),
            Ends::Narrow(counts) => counts.len(),
            Ends::Same(counts) => counts.len(),
            Ends::Apart(spans) => spans.len(),
        }
    }

    /// The span at a place.
    pub fn at(&self, i: usize) -> (u32, u32)
        requires { i < length (spans_in self.now) }
        ensures { result ≡ span_at (spans_in self.now) i }
    {
        match self {
            Ends::Zeros(_) => (0, 0),
            Ends::Few(counts) => of_byte(counts.as_slice()[i]),
            Ends::Narrow(counts) => of_byte(counts[i]),
            Ends::Same(counts) => (counts[i], counts[i]),
            Ends::Apart(spans) => spans[i],
        }
    }

    /// The ends of the same spans. Where all are 0, the copy of a list of bytes takes no memory.
    pub fn copied(&self, alloc: Global) -> Result<Ends, AllocError>
        ensures same { IfOk result (λ ends. spans_in ends ≡ spans_in self.now) }
        ensures room { IfOk result (λ ends. room_of ends ≤ room_of self.now) }
    {
        match self {
            Ends::Zeros(count) => Ok(Ends::Zeros(*count)),
            Ends::Few(counts) => Ok(Ends::Few(counts.copied())),
            Ends::Narrow(counts) => narrow_copied(alloc, counts),
            Ends::Same(counts) => Ok(Ends::Same(Vec::from_slice(alloc, counts)?)),
            Ends::Apart(spans) => Ok(Ends::Apart(Vec::from_slice(alloc, spans)?)),
        }
    }

    /// Whether the spans of both are the same, by a look at each.
    fn agrees(&self, other: &Ends) -> bool
        requires { length (spans_in self.now) ≡ length (spans_in other.now) }
        ensures { IsTrue result ↔ (spans_in self.now ≡ spans_in other.now) }
    {
        for i in 0..self.len() {
            if self.at(i) != other.at(i) {
                return false;
            }
        }
        true
    }

    /// Whether both keep one number for each span, and the same.
    fn is_same(&self, other: &Ends) -> bool
        requires { length (spans_in self.now) ≡ length (spans_in other.now) }
        ensures { IsTrue result ↔ (IsSingle self.now × IsSingle other.now × (spans_in self.now ≡ spans_in other.now)) }
    {
        match (self, other) {
            (Ends::Apart(_), _) => false,
            (_, Ends::Apart(_)) => false,
            (Ends::Zeros(count), Ends::Zeros(others)) => count == others,
            (Ends::Zeros(_), Ends::Narrow(counts)) => are_zeros(counts),
            (Ends::Narrow(counts), Ends::Zeros(_)) => are_zeros(counts),
            (Ends::Few(counts), Ends::Few(others)) => counts.as_slice() == others.as_slice(),
            (Ends::Narrow(counts), Ends::Narrow(others)) => counts == others,
            (Ends::Same(counts), Ends::Same(others)) => counts == others,
            _ => self.agrees(other),
        }
    }

    /// The spans around those of both, one by one.
    #[tactic(auto, using(crate::proofs::Steps::spans_more))]
    fn around(&self, alloc: Global, other: &Ends) -> Result<Vec<(u32, u32)>, AllocError>
        requires { length (spans_in self.now) ≡ length (spans_in other.now) }
        ensures { IfOk result (λ spans. spans.items ≡ spans_of (spans_in self.now) (spans_in other.now)) }
    {
        let count = self.len();
        let mut found = Vec::with_capacity(alloc, count)?;
        for i in 0..count {
            found.push(span(self.at(i), other.at(i)))?;
        }
        Ok(found)
    }

    /// The ends of the spans around those of both, one by one. Where both keep one number for each span, and the same, they
    /// take no more room than the first.
    #[tactic(auto, using(crate::proofs::SpanLemmas::same_joined))]
    pub fn joined(&self, alloc: Global, other: &Ends) -> Result<Ends, AllocError>
        requires { length (spans_in self.now) ≡ length (spans_in other.now) }
        ensures joined { IfOk result (λ ends. spans_in ends ≡ spans_of (spans_in self.now) (spans_in other.now)) }
        ensures room { IsSingle self.now → IsSingle other.now → spans_in self.now ≡ spans_in other.now
            → IfOk result (λ ends. room_of ends ≤ room_of self.now) }
    {
        if self.is_same(other) {
            return self.copied(alloc);
        }
        let spans = self.around(alloc, other)?;
        Ok(Ends::Apart(spans))
    }
}
