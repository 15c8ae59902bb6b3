//! A recorder that goes along a walk.

ghost use Rattle.std.specs.Prelude.{◌≤◌, ◌<◌, ◌+◌, ◌-◌, ◌^◌, OnOk, length};

use crate::run_edges::has_edge_to_node;
use domain_core::{Outline, Recorder};
use std::alloc::{AllocError, Global};

/// Goes along the walk, whose first node is the one at which the recorder stands. False where it is no
/// walk of the outline.
pub fn go_along<R: Recorder>(
    alloc: Global,
    outline: &Outline,
    recorder: &mut R,
    book: &mut R::Book,
    walk: &[u32],
) -> Result<bool, AllocError>
    requires suited { R.recording.suits outline.now }
    requires recorder { R.recording.is_of outline.now recorder.old }
    requires book { R.recording.book_is_of outline.now book.old }
    requires room { R.recording.length_of recorder.old + length walk.now < 2 ^ 32 - 1 }
    ensures recorder { OnOk result (R.recording.is_of outline.now recorder.new) }
    ensures book { OnOk result (R.recording.book_is_of outline.now book.new) }
    ensures length { OnOk result
        (R.recording.length_of recorder.new ≤ R.recording.length_of recorder.old + length walk.now) }
{
    if walk.is_empty() {
        return Ok(false);
    }
    outline.kept();
    for i in 1..walk.len() {
        if !has_edge_to_node(outline, walk[i - 1], walk[i]) {
            return Ok(false);
        }
        recorder.go(alloc, outline, book, walk[i - 1], walk[i])?;
    }
    Ok(true)
}
