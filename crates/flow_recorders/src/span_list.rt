//! Lists of spans, of one number each while least and greatest are the same.

ghost use Rattle.std.specs.Prelude.{◌≡◌, ◌-◌, ◌^◌, ◌<◌, length, map, replicate, slice_set, nat_lt, IfOk, OnOk};
ghost use Rattle.recorder_rules.specs.Spans.{one_more};
ghost use Rattle.recorder_rules.specs.SpanLaws.{spans_of};
ghost use Rattle.recorder_rules.specs.TotalRules.{span_at};
ghost use Rattle.flow_recorders.specs.SpanLists.{only, spans_in};

use crate::ends::{Ends, small_ends, visited_once};
use crate::few::{FewCounts, MOST_COUNTS};
use crate::small::{are_small, widened_by};
use std::alloc::{AllocError, Global};
use std::marker::Model;

/// A list of spans. Until spans that differ are joined it keeps one number for each, and that in a byte until one of
/// them is past 255. While all are 0 it may keep only how many there are.
#[derive(Drop)]
pub struct SpanList {
    ends: Ends,
}

impl Model for SpanList {
    ghost use Rattle.std.specs.Prelude.{List, ℕ};
    ghost use Rattle.flow_recorders.specs.SpanLists.{spans_in};

    ghost Value = { List (ℕ × ℕ) };

    ghost view = { λ list. spans_in list.ends };
}

impl SpanList {
    /// The spans of these numbers alone.
    pub fn only(alloc: Global, counts: Vec<u32>) -> Result<SpanList, AllocError>
        ensures { IfOk result (λ list. list ≡ map only counts.items) }
    {
        let mut list = SpanList {
            ends: Ends::Same(counts),
        };
        list.settle(alloc)?;
        Ok(list)
    }

    /// As many spans of 0 alone. It takes no memory.
    pub fn zeros(count: usize) -> SpanList
        ensures { result ≡ replicate count (0, 0) }
    {
        if count <= MOST_COUNTS {
            return SpanList {
                ends: Ends::Few(FewCounts::zeros(count)),
            };
        }
        SpanList {
            ends: Ends::Zeros(count),
        }
    }

    /// Goes back to bytes where each number fits into one again. It looks at the numbers up to the first that does not.
    pub fn settle(&mut self, alloc: Global) -> Result<(), AllocError>
        ensures { OnOk result (self.new ≡ self.old) }
    {
        if let Ends::Same(counts) = &self.ends {
            if are_small(counts) {
                self.ends = small_ends(alloc, counts)?;
            }
        }
        Ok(())
    }

    /// How many spans there are.
    pub fn len(&self) -> usize
        ensures { result ≡ length self.now }
    {
        self.ends.len()
    }

    /// The span at a place.
    pub fn at(&self, i: usize) -> (u32, u32)
        requires { i < length self.now }
        ensures { result ≡ span_at self.now i }
    {
        self.ends.at(i)
    }

    /// The spans that have these ends, in place of those that it has.
    fn begin_with(&mut self, ends: Ends)
        ensures { self.new ≡ spans_in ends }
    {
        self.ends = ends;
    }

    /// The spans of these numbers alone, in place of those that it has.
    fn widen_to(&mut self, counts: Vec<u32>)
        ensures { self.new ≡ map only counts.items }
    {
        self.ends = Ends::Same(counts);
    }

    /// One more at a place. It takes memory only where the number there is past a byte with it, or all were 0.
    pub fn visit(&mut self, alloc: Global, i: usize) -> Result<(), AllocError>
        requires low { i < length self.old }
        requires least { (span_at self.old i).0 < 2 ^ 32 - 1 }
        requires most { (span_at self.old i).1 < 2 ^ 32 - 1 }
        ensures { OnOk result (self.new ≡ slice_set self.old i (one_more (span_at self.old i))) }
    {
        match &mut self.ends {
            Ends::Zeros(count) => {
                let ends = visited_once(alloc, *count, i)?;
                self.begin_with(ends);
            }
            Ends::Few(counts) => match counts.as_slice()[i].checked_add(1) {
                Some(count) => counts.set(i, count),
                None => {
                    let wide = widened_by(alloc, counts.as_slice(), i)?;
                    self.widen_to(wide);
                }
            },
            Ends::Narrow(counts) => match counts[i].checked_add(1) {
                Some(count) => counts[i] = count,
                None => {
                    let wide = widened_by(alloc, counts, i)?;
                    self.widen_to(wide);
                }
            },
            Ends::Same(counts) => counts[i] += 1,
            Ends::Apart(spans) => {
                let (least, most) = spans[i];
                spans[i] = (least + 1, most + 1);
            }
        }
        Ok(())
    }

    /// Whether the least number of the span at a place takes more than a byte.
    pub fn is_wide(&self, i: usize) -> bool
        requires { i < length self.now }
        ensures { result ≡ nat_lt 255 (span_at self.now i).0 }
    {
        self.at(i).0 > 255
    }

    /// Lets the span at a place begin anew.
    pub fn reset(&mut self, i: usize)
        requires { i < length self.old }
        ensures { self.new ≡ slice_set self.old i (0, 0) }
    {
        match &mut self.ends {
            Ends::Zeros(_) => {}
            Ends::Few(counts) => counts.set(i, 0),
            Ends::Narrow(counts) => counts[i] = 0,
            Ends::Same(counts) => counts[i] = 0,
            Ends::Apart(spans) => spans[i] = (0, 0),
        }
    }

    /// The same spans. Where all are 0, the copy of a list of bytes takes no memory.
    pub fn copied(&self, alloc: Global) -> Result<SpanList, AllocError>
        ensures { IfOk result (λ copy. copy ≡ self.now) }
    {
        let ends = self.ends.copied(alloc)?;
        Ok(SpanList { ends })
    }

    /// The spans around those of both, one by one, as a list.
    pub fn joined(&self, alloc: Global, other: &SpanList) -> Result<SpanList, AllocError>
        requires { length self.now ≡ length other.now }
        ensures { IfOk result (λ list. list ≡ spans_of self.now other.now) }
    {
        let ends = self.ends.joined(alloc, &other.ends)?;
        Ok(SpanList { ends })
    }
}
