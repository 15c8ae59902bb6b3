//! How often an execution of a scope visits nodes of it.

ghost use Rattle.std.specs.Prelude.{◌≡◌, ◌<◌, length, slice_get, Some};

use crate::begun::begun;
use crate::counted::Counted;
use crate::span_list::SpanList;
use crate::tallies::Tallies;
use domain_core::{Lattice, Outline, Recorder};
use std::alloc::{AllocError, Global};
use std::marker::{Model, PhantomData};

/// For each number of what is counted the least and the greatest number of visits of its node in the
/// execution of its scope that is not over.
#[derive(Drop)]
pub struct Visits<K> {
    spans: SpanList,
    counted: PhantomData<K>,
}

impl<K> Model for Visits<K> {
    ghost use Rattle.std.specs.Prelude.{List, ℕ};

    ghost Value = { List (ℕ × ℕ) };

    ghost view = { λ visits. visits.spans };
}

/// For each of these numbers the least and the greatest number of visits in the executions that are over.
#[derive(Drop)]
pub struct VisitsBook<K> {
    tallies: Tallies,
    counted: PhantomData<K>,
}

impl<K> Model for VisitsBook<K> {
    ghost use Rattle.recorder_rules.specs.TallyRules.{Ledger};

    ghost Value = { Ledger };

    ghost view = { λ book. book.tallies };
}

impl<K> VisitsBook<K> {
    /// What was collected of a number: the least and the greatest count, or `None` where there was no
    /// execution or nothing is counted.
    pub(crate) fn spread_of(&self, number: u32) -> Option<(u32, u32)>
        requires { number < length self.now.spreads }
        ensures { slice_get self.now.spreads number ≡ Some result }
    {
        self.tallies.spread_of(number)
    }
}

impl<K> Lattice for Visits<K> {
    ghost use Rattle.recorder_rules.specs.TotalRules.{span_order};
    ghost use Rattle.recorder_rules.specs.TotalLaws.{span_is_order};

    ghost order = { span_order };

    ghost is_order = { span_is_order };

    fn copy(&self, alloc: Global) -> Result<Self, AllocError> {
        Ok(Visits {
            spans: self.spans.copied(alloc)?,
            counted: PhantomData,
        })
    }

    fn join(&self, alloc: Global, other: &Self) -> Result<Self, AllocError> {
        Ok(Visits {
            spans: self.spans.joined(alloc, &other.spans)?,
            counted: PhantomData,
        })
    }
}

impl<K: Counted> Recorder for Visits<K> {
    ghost use Rattle.recorder_rules.specs.TallyRules.{tally_recording};

    type Book = VisitsBook<K>;

    ghost recording = { tally_recording K.tally };

    ghost is_recording = { K.is_recording };

    fn book(alloc: Global, outline: &Outline) -> Result<VisitsBook<K>, AllocError> {
        outline.kept();
        let scopes = K::scopes(alloc, outline)?;
        let nodes = K::nodes(alloc, outline)?;
        Ok(VisitsBook {
            tallies: Tallies::new(alloc, outline, scopes, nodes)?,
            counted: PhantomData,
        })
    }

    fn start(alloc: Global, outline: &Outline) -> Result<Self, AllocError> {
        outline.kept();
        let nodes = K::nodes(alloc, outline)?;
        Ok(Visits {
            spans: begun(alloc, &nodes)?,
            counted: PhantomData,
        })
    }

    fn go(
        &mut self,
        alloc: Global,
        outline: &Outline,
        book: &mut VisitsBook<K>,
        from: u32,
        to: u32,
    ) -> Result<(), AllocError> {
        outline.kept();
        book.tallies
            .go_on(alloc, outline, &mut self.spans, from, to)
    }

    fn finish(
        &self,
        alloc: Global,
        outline: &Outline,
        book: &mut VisitsBook<K>,
        last: u32,
    ) -> Result<(), AllocError> {
        outline.kept();
        book.tallies.end(alloc, outline, &self.spans, last)
    }
}
