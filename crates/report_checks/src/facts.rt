//! What was collected, against the lines of a report.

ghost use Rattle.std.specs.Prelude.{◌≡◌, ◌<◌, ◌+◌, ◌^◌, All, length};
ghost use Rattle.domain_core.specs.Outlines.{shape_of};
ghost use Rattle.ipet_rows.specs.Shaped.{FitsOutline};
ghost use Rattle.flow_gathering.specs.Gathering.{found_in, IsSized};
ghost use Rattle.report_objections.specs.Objecting.{is_outside as is_outside_of, excludes as excludes_of, place_of};

use domain_core::Outline;
use flow_facts::Fact;
use flow_gathering::Collected;

// Whether a span that was collected is not inside the numbers.
fn is_outside(low: u32, high: u32, spread: Option<(u32, u32)>) -> bool
    ensures { result ≡ is_outside_of low high spread }
{
    match spread {
        None => false,
        Some((least, most)) => least < low || high < most,
    }
}

// Whether the line excludes what was collected.
fn excludes(outline: &Outline, found: &Collected, fact: &Fact) -> bool
    requires sized { IsSized outline.now (found_in found.now) }
    requires fits { FitsOutline (shape_of outline.now) fact.now }
    ensures { result ≡ excludes_of (found_in found.now) fact.now }
{
    match *fact {
        Fact::Loop(s, low, high) => is_outside(low, high, found.books.first.second.loop_of(s)),
        Fact::Count(_, n, low, high) => is_outside(low, high, found.books.second.first.count_of(n)),
        Fact::Dead(n) => found.stepped[n as usize],
        Fact::Total(n, low, high) => is_outside(low, high, found.books.first.first.total_of(n)),
        Fact::Pair(_, a, b) => found.books.second.second.together(a, b),
        Fact::Alarm(_, _) => false,
    }
}

/// The number of the first line that excludes what was collected, if there is one. The first line has this number.
pub fn excluded(outline: &Outline, found: &Collected, facts: &[Fact], first: u64) -> Option<u64>
    requires sized { IsSized outline.now (found_in found.now) }
    requires fit { All (λ f. FitsOutline (shape_of outline.now) f) facts.now }
    requires room { first + length facts.now < 2 ^ 64 }
    ensures { result ≡ place_of (λ f. excludes_of (found_in found.now) f) first facts.now }
{
    let mut rest = facts;
    let mut line = first;
    while let Some((fact, others)) = rest.split_first() {
        if excludes(outline, found, fact) {
            return Some(line);
        }
        line += 1;
        rest = others;
    }
    None
}
