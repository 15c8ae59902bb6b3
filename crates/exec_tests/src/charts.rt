//! Flow charts in a short notation.

ghost use Rattle.std.specs.Prelude.{ℕ, IfOk};
ghost use Rattle.domain_core.specs.Outlines.{shape_of};
ghost use Rattle.domain_core.specs.Machines.{IsAlong};
ghost use Rattle.exec_toys.specs.declared.span.Span.{Span};
ghost use Rattle.exec_toys.specs.Charts.{chart_machine};

use crate::words::{number, part};
use alf_ops::RunFault;
use domain_core::Outline;
use exec_toys::{Chart, Fork, Span, Way};
use std::alloc::{AllocError, Global};
use std::test::Fail;

// `3` leads to node 3, and `3-1` makes the number 1 less; `!` divides by 0, and `#` loads what no store wrote.
fn way(word: &str) -> Way {
    match word {
        "!" => Way::Fails(RunFault::Divide),
        "#" => Way::Fails(RunFault::Uninit),
        _ => Way::Goes(number(part(word, "-", 0)), number(part(word, "-", 1))),
    }
}

// `5?2:3` is way 2 for numbers below 5, and way 3 for the others. A way alone is that of all numbers.
fn fork(word: &str) -> Fork {
    let first = part(word, "?", 0);
    let ways = part(word, "?", 1);
    if ways.is_empty() {
        return Fork {
            limit: 0,
            below: way(first),
            above: way(first),
        };
    }
    Fork {
        limit: number(first),
        below: way(part(ways, ":", 0)),
        above: way(part(ways, ":", 1)),
    }
}

fn forks(alloc: Global, words: &str) -> Result<Vec<Fork>, AllocError> {
    let mut found = Vec::new(alloc);
    for word in words.split(' ') {
        found.push(fork(word))?;
    }
    Ok(found)
}

// The numbers of a text, as `0..9`.
fn span(words: &str) -> Span {
    Span {
        least: number(part(words, "..", 0)),
        most: number(part(words, "..", 1)),
    }
}

// The flow chart of a text: a fork for each node, and the numbers at the start.
pub fn chart_of(alloc: Global, outline: &Outline, words: &str, first: &str) -> Result<Chart, Fail>
    ensures { IfOk result
        (λ chart. IsAlong Span ℕ (shape_of outline.now) (chart_machine chart.forks.items chart.first)) }
{
    match Chart::new(outline, forks(alloc, words)?, span(first)) {
        Some(chart) => Ok(chart),
        None => Err("a way lies along no edge".into()),
    }
}
