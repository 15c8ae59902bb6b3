//! How often a run visits each node.

ghost use Rattle.std.specs.Prelude.{◌≡◌, ◌<◌, length, slice_get, Some};

use crate::span_list::SpanList;
use crate::spans::collect_all;
use domain_core::{Lattice, Outline, Recorder};
use std::alloc::{AllocError, Global};
use std::marker::Model;

/// For each node the least and the greatest number of its visits so far.
#[derive(Drop)]
pub struct Totals {
    counts: SpanList,
}

impl Model for Totals {
    ghost use Rattle.std.specs.Prelude.{List, ℕ};

    ghost Value = { List (ℕ × ℕ) };

    ghost view = { λ totals. totals.counts };
}

/// For each node the least and the greatest number of its visits in the runs that are over.
#[derive(Drop)]
pub struct TotalsBook {
    totals: Vec<Option<(u32, u32)>>,
}

impl Model for TotalsBook {
    ghost use Rattle.std.specs.Prelude.{List, ℕ, Option};

    ghost Value = { List (Option (ℕ × ℕ)) };

    ghost view = { λ book. book.totals.items };
}

impl TotalsBook {
    /// The least and the greatest number of visits of the node in a run that was collected. `None`
    /// exactly where no run was.
    pub fn total_of(&self, node: u32) -> Option<(u32, u32)>
        requires { node < length self.now }
        ensures { slice_get self.now node ≡ Some result }
    {
        self.totals[node as usize]
    }
}

impl Lattice for Totals {
    ghost use Rattle.recorder_rules.specs.TotalRules.{span_order};
    ghost use Rattle.recorder_rules.specs.TotalLaws.{span_is_order};

    ghost order = { span_order };

    ghost is_order = { span_is_order };

    fn copy(&self, alloc: Global) -> Result<Self, AllocError> {
        Ok(Totals {
            counts: self.counts.copied(alloc)?,
        })
    }

    fn join(&self, alloc: Global, other: &Self) -> Result<Self, AllocError> {
        Ok(Totals {
            counts: self.counts.joined(alloc, &other.counts)?,
        })
    }
}

impl Recorder for Totals {
    ghost use Rattle.recorder_rules.specs.TotalRules.{total_recording};
    ghost use Rattle.recorder_rules.specs.TotalLaws.{total_is_recording};

    type Book = TotalsBook;

    ghost recording = { total_recording };

    ghost is_recording = { total_is_recording };

    fn book(alloc: Global, outline: &Outline) -> Result<TotalsBook, AllocError> {
        Ok(TotalsBook {
            totals: vec![in alloc; None; outline.node_count() as usize]?,
        })
    }

    fn start(alloc: Global, outline: &Outline) -> Result<Self, AllocError> {
        outline.kept();
        let mut counts = SpanList::zeros(outline.node_count() as usize);
        counts.visit(alloc, 0)?;
        Ok(Totals { counts })
    }

    fn go(
        &mut self,
        alloc: Global,
        _outline: &Outline,
        _book: &mut TotalsBook,
        _from: u32,
        to: u32,
    ) -> Result<(), AllocError> {
        self.counts.visit(alloc, to as usize)
    }

    fn finish(
        &self,
        _alloc: Global,
        _outline: &Outline,
        book: &mut TotalsBook,
        _last: u32,
    ) -> Result<(), AllocError> {
        collect_all(&mut book.totals, &self.counts);
        Ok(())
    }
}
