//! The lines of a report, against the books that have a run.

ghost use Rattle.std.specs.Prelude.{◌≡◌, ◌<◌, ◌+◌, ◌^◌, All, length};
ghost use Rattle.domain_core.specs.Outlines.{shape_of};
ghost use Rattle.ipet_rows.specs.Shaped.{FitsOutline, FitOutline};
ghost use Rattle.report_soundness.specs.ReportTold.{books_of};
ghost use Rattle.report_objections.specs.Objecting.{is_outside as is_outside_of, place_of};
ghost use Rattle.run_replays.specs.Tests.{AreSized, breaks as breaks_of};

use crate::walked::FourBooks;
use domain_core::Outline;
use flow_facts::Fact;

// Whether a span is not inside the numbers.
fn is_outside(low: u32, high: u32, spread: Option<(u32, u32)>) -> bool
    ensures { result ≡ is_outside_of low high spread }
{
    match spread {
        None => false,
        Some((least, most)) => least < low || high < most,
    }
}

// Whether the run of the books does not meet the line.
fn breaks(outline: &Outline, books: &FourBooks, fact: &Fact) -> bool
    requires sized { AreSized outline.now (books_of books.now) }
    requires fits { FitsOutline (shape_of outline.now) fact.now }
    ensures { result ≡ breaks_of (books_of books.now) fact.now }
{
    match *fact {
        Fact::Loop(s, low, high) => is_outside(low, high, books.first.second.loop_of(s)),
        Fact::Count(_, n, low, high) => is_outside(low, high, books.second.first.count_of(n)),
        Fact::Dead(n) => is_outside(0, 0, books.first.first.total_of(n)),
        Fact::Total(n, low, high) => is_outside(low, high, books.first.first.total_of(n)),
        Fact::Pair(_, a, b) => books.second.second.together(a, b),
        Fact::Alarm(_, _) => false,
    }
}

/// The number of the first line that the run of the books does not meet, if there is one. The first line has this
/// number.
pub fn broken(outline: &Outline, books: &FourBooks, facts: &[Fact], first: u64) -> Option<u64>
    requires sized { AreSized outline.now (books_of books.now) }
    requires fit { All (λ f. FitsOutline (shape_of outline.now) f) facts.now }
    requires room { first + length facts.now < 2 ^ 64 }
    ensures { result ≡ place_of (λ f. breaks_of (books_of books.now) f) first facts.now }
{
    let mut rest = facts;
    let mut line = first;
    while let Some((fact, others)) = rest.split_first() {
        if breaks(outline, books, fact) {
            return Some(line);
        }
        line += 1;
        rest = others;
    }
    None
}
