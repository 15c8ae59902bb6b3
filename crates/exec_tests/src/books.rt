//! Runs as text, and what the books tell of them.

ghost use Rattle.std.specs.Prelude.{◌≡◌, ◌<◌, OnOk, length};

use crate::told::add_spread;
use crate::words::part;
use domain_core::{Outline, Recorder};
use exec_toys::{new_book, record, record_joined};
use flow_recorders::{Both, Counts, Loops, Totals};
use pair_recorder::{Pairs, PairsBook};
use std::alloc::{AllocError, Global};
use std::test::Fail;

// The numbers of a text.
fn numbers(alloc: Global, text: &str) -> Result<Vec<u32>, AllocError> {
    let mut found = Vec::new(alloc);
    for word in text.split(' ') {
        if let Ok(n) = word.parse::<u32>() {
            found.push(n)?;
        }
    }
    Ok(found)
}

// Enters a run: the nodes of a walk, or of two that are merged and of the rest, as `0 1 + 0 2 1 > 1 3`.
fn enter<R: Recorder>(
    alloc: Global,
    outline: &Outline,
    book: &mut R::Book,
    run: &str,
) -> Result<bool, AllocError>
    requires suited { R.recording.suits outline.now }
    requires book { R.recording.book_is_of outline.now book.old }
    ensures book { OnOk result (R.recording.book_is_of outline.now book.new) }
{
    let first = numbers(alloc, part(run, " + ", 0))?;
    let merged = part(run, " + ", 1);
    if merged.is_empty() {
        return record::<R>(alloc, outline, book, &first);
    }
    let second = numbers(alloc, part(merged, " > ", 0))?;
    let rest = numbers(alloc, part(merged, " > ", 1))?;
    record_joined::<R>(alloc, outline, book, &first, &second, &rest)
}

// Enters several runs. False where one is no walk of the outline.
fn enter_all<R: Recorder>(
    alloc: Global,
    outline: &Outline,
    book: &mut R::Book,
    runs: &str,
) -> Result<bool, AllocError>
    requires suited { R.recording.suits outline.now }
    requires book { R.recording.book_is_of outline.now book.old }
    ensures book { OnOk result (R.recording.book_is_of outline.now book.new) }
{
    for run in runs.split(" & ") {
        if !enter::<R>(alloc, outline, book, run)? {
            return Ok(false);
        }
    }
    Ok(true)
}

// The recorders of totals, loops, counts and pairs side by side.
type All = Both<Both<Totals, Loops>, Both<Counts, Pairs>>;

// The pairs: in each the lesser node first, where they are told both ways.
fn add_pairs(
    alloc: Global,
    text: &mut String,
    book: &PairsBook,
    count: u32,
) -> Result<(), AllocError>
    requires { count ≡ length book.now.pairs }
{
    for a in 0..count {
        for b in a..count {
            if a < b && book.together(a, b) && book.together(b, a) {
                let told = format!(in alloc; "{a}.{b} ")?;
                text.push_str(told.as_str())?;
            }
        }
    }
    Ok(())
}

// What the books tell of the runs: of each node in a run, of each scope's header and of each other node of
// a loop in an execution, and the pairs.
pub fn told(alloc: Global, outline: &Outline, runs: &str) -> Result<String, Fail> {
    let mut book = new_book::<All>(alloc, outline)?;
    if !enter_all::<All>(alloc, outline, &mut book, runs)? {
        return Err("no walk".into());
    }
    let mut text = String::new(alloc);
    for n in 0..outline.node_count() {
        add_spread(alloc, &mut text, ".", book.first.first.total_of(n))?;
    }
    text.push_str("=> ")?;
    for s in 0..outline.scope_count() {
        add_spread(alloc, &mut text, ".", book.first.second.loop_of(s))?;
    }
    text.push_str("=> ")?;
    for n in 0..outline.node_count() {
        add_spread(alloc, &mut text, ".", book.second.first.count_of(n))?;
    }
    text.push_str("=> ")?;
    add_pairs(alloc, &mut text, &book.second.second, outline.node_count())?;
    Ok(text)
}
