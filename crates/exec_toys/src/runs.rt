//! Whole runs.

ghost use Rattle.std.specs.Prelude.{◌<◌, ◌+◌, ◌-◌, ◌^◌, IfOk, OnOk, length};

use crate::along::go_along;
use domain_core::{Outline, Recorder};
use std::alloc::{AllocError, Global};

/// Goes along the rest of a run and enters it in the book. False where it is no walk of the outline.
fn finish_along<R: Recorder>(
    alloc: Global,
    outline: &Outline,
    recorder: &mut R,
    book: &mut R::Book,
    walk: &[u32],
) -> Result<bool, AllocError>
    requires suited { R.recording.suits outline.now }
    requires recorder { R.recording.is_of outline.now recorder.old }
    requires book { R.recording.book_is_of outline.now book.old }
    requires room { R.recording.length_of recorder.old + length walk.now < 2 ^ 32 - 1 }
    ensures book { OnOk result (R.recording.book_is_of outline.now book.new) }
{
    outline.kept();
    if !go_along(alloc, outline, recorder, book, walk)? {
        return Ok(false);
    }
    let Some(last) = walk.last() else {
        return Ok(false);
    };
    if *last >= outline.node_count() {
        return Ok(false);
    }
    recorder.finish(alloc, outline, book, *last)?;
    Ok(true)
}

/// An empty book of the outline.
pub fn new_book<R: Recorder>(alloc: Global, outline: &Outline) -> Result<R::Book, AllocError>
    requires suited { R.recording.suits outline.now }
    ensures { IfOk result (λ book. R.recording.book_is_of outline.now book) }
{
    outline.kept();
    R::book(alloc, outline)
}

/// Enters a run in the book: a walk from node 0, at most 65,536 nodes long.
pub fn record<R: Recorder>(
    alloc: Global,
    outline: &Outline,
    book: &mut R::Book,
    walk: &[u32],
) -> Result<bool, AllocError>
    requires suited { R.recording.suits outline.now }
    requires book { R.recording.book_is_of outline.now book.old }
    ensures book { OnOk result (R.recording.book_is_of outline.now book.new) }
{
    if walk.len() > 65536 {
        return Ok(false);
    }
    outline.kept();
    let mut recorder = R::start(alloc, outline)?;
    finish_along(alloc, outline, &mut recorder, book, walk)
}

/// Enters two runs that are merged where they come to one node, and then go on as one.
pub fn record_joined<R: Recorder>(
    alloc: Global,
    outline: &Outline,
    book: &mut R::Book,
    first: &[u32],
    second: &[u32],
    rest: &[u32],
) -> Result<bool, AllocError>
    requires suited { R.recording.suits outline.now }
    requires book { R.recording.book_is_of outline.now book.old }
    ensures book { OnOk result (R.recording.book_is_of outline.now book.new) }
{
    if first.len() > 65536 || second.len() > 65536 || rest.len() > 65536 {
        return Ok(false);
    }
    outline.kept();
    let mut one = R::start(alloc, outline)?;
    if !go_along(alloc, outline, &mut one, book, first)? {
        return Ok(false);
    }
    let mut other = R::start(alloc, outline)?;
    if !go_along(alloc, outline, &mut other, book, second)? {
        return Ok(false);
    }
    let mut merged = one.join(alloc, &other)?;
    finish_along(alloc, outline, &mut merged, book, rest)
}
