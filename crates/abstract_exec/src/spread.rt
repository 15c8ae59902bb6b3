//! The places that the successors of a place make.

ghost use Rattle.std.specs.Prelude.{◌≡◌, ◌≢◌, ◌<◌, ◌-◌, ◌^◌, ◌++◌, ℕ, length, Contains, IfOk, OnOk};
ghost use Rattle.domain_core.specs.Outlines.{shape_of, scopes_around};
ghost use Rattle.worklist_rules.specs.Positions.{IsPosition, turn_in};
ghost use Rattle.worklist_rules.specs.Events.{spots_after, book_after, spread_spots, spread_book};
ghost use Rattle.worklist_rules.specs.Successors.{AreAlong};

use crate::place::{Place, Position};
use crate::position::position_along;
use domain_core::{Outline, Recorder};
use std::alloc::{AllocError, Global};

/// Makes the place of one successor, and takes the recorder into it; or collects the trace, where
/// the successor is at the end of runs.
fn succeed<T: Drop, R: Recorder>(
    alloc: Global,
    outline: &Outline,
    from: u32,
    position: Position,
    recorder: R,
    book: &mut R::Book,
    successor: (u32, T),
    made: &mut Vec<Place<T, R>>,
) -> Result<(), AllocError>
    requires suits { R.recording.suits outline.now }
    requires recorder { R.recording.is_of outline.now recorder }
    requires book { R.recording.book_is_of outline.now book.old }
    requires from { from < length outline.now.nodes }
    requires along { successor.0 ≢ length outline.now.nodes
        → Contains outline.now.edges (from, successor.0) × (successor.0 < length outline.now.nodes) }
    requires room { R.recording.length_of recorder < 2 ^ 32 - 1 }
    requires is { IsPosition (shape_of outline.now) from position.items }
    requires low { (t : ℕ) → turn_in (scopes_around (shape_of outline.now) from) position.items t < 2 ^ 32 - 1 }
    ensures places { OnOk result
        (made.new.items
        ≡ made.old.items ++ spots_after R.recording outline.now position.items recorder from book.old successor) }
    ensures book { OnOk result (book.new ≡ book_after R.recording outline.now recorder from book.old successor) }
{
    let (to, state) = successor;
    let mut recorder = recorder;
    if to == outline.node_count() {
        recorder.finish(alloc, outline, book, from)?;
        return Ok(());
    }
    let position = position_along(alloc, outline, from, position, to)?;
    recorder.go(alloc, outline, book, from, to)?;
    made.push(Place {
        node: to,
        position,
        state,
        recorder,
    })?;
    Ok(())
}

/// The places that the successors make, in order; the last one takes the position and the recorder, and the others
/// have copies.
pub fn spread<T: Drop, R: Recorder>(
    alloc: Global,
    outline: &Outline,
    from: u32,
    position: Position,
    recorder: R,
    book: &mut R::Book,
    next: Vec<(u32, T)>,
) -> Result<Vec<Place<T, R>>, AllocError>
    requires suits { R.recording.suits outline.now }
    requires recorder { R.recording.is_of outline.now recorder }
    requires book { R.recording.book_is_of outline.now book.old }
    requires from { from < length outline.now.nodes }
    requires along { AreAlong outline.now from next.items }
    requires room { R.recording.length_of recorder < 2 ^ 32 - 1 }
    requires is { IsPosition (shape_of outline.now) from position.items }
    requires low { (t : ℕ) → turn_in (scopes_around (shape_of outline.now) from) position.items t < 2 ^ 32 - 1 }
    ensures places { IfOk result
        (λ made. made.items ≡ spread_spots R.recording outline.now position.items recorder from book.old next.items) }
    ensures book { OnOk result (book.new ≡ spread_book R.recording outline.now recorder from book.old next.items) }
{
    outline.kept();
    let mut made = Vec::new(alloc);
    let mut next = next;
    let Some(last) = next.pop() else {
        return Ok(made);
    };
    next.reverse();
    while let Some(successor) = next.pop() {
        let copied = Position::from_slice(alloc, &position)?;
        let copy = recorder.copy(alloc)?;
        succeed(
            alloc, outline, from, copied, copy, book, successor, &mut made,
        )?;
    }
    succeed(
        alloc, outline, from, position, recorder, book, last, &mut made,
    )?;
    Ok(made)
}
