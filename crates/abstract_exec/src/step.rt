//! Steps of places.

ghost use Rattle.std.specs.Prelude.{◌≡◌, ◌<◌, ◌+◌, ◌-◌, ◌^◌, ◌↔◌, IsTrue, ◌++◌, ◌∷◌, [], suc, length, take, drop};
ghost use Rattle.std.specs.Prelude.{slice_get, Some, IfOk, OnOk};
ghost use Rattle.domain_core.specs.Outlines.{shape_of};
ghost use Rattle.domain_core.specs.Machines.{IsAlong};
ghost use Rattle.worklist_rules.specs.Events.{book_at_faults, spread_spots, spread_book};
ghost use Rattle.worklist_rules.specs.Kept.{IsPlaced};
ghost use Rattle.worklist_rules.specs.Pools.{Spot, may_fault};
ghost use Rattle.worklist_rules.specs.Positions.{position_of};

use crate::place::Place;
use crate::position::first_position;
use crate::room::put_all;
use crate::spread::spread;
use alf_ops::RunFault;
use domain_core::{FaultSet, Outline, Recorder, Stepped, Stepper};
use std::alloc::{AllocError, Global};
use worklist::Line;

/// What a step makes of a place.
#[derive(Drop)]
struct Outcome<T, R> {
    /// The places of its successors, in order.
    places: Vec<Place<T, R>>,
    /// The faults that some run may end with there.
    faults: FaultSet,
}

/// The place at which an exploration starts.
pub fn first_place<S: Stepper, R: Recorder>(
    alloc: Global,
    stepper: &S,
    outline: &Outline,
) -> Result<Place<S::State, R>, AllocError>
    requires { R.recording.suits outline.now }
    ensures { IfOk result
        (λ place. place
        ≡ record {
          node = 0;
          position = position_of (shape_of outline.now) (0 ∷ []);
          state = (S.machine stepper.now).first;
          recorder = R.recording.first outline.now;
        }) }
{
    let position = first_position(alloc, outline)?;
    let state = stepper.start(alloc)?;
    let recorder = R::start(alloc, outline)?;
    Ok(Place {
        node: 0,
        position,
        state,
        recorder,
    })
}

/// Whether some fault is in the set.
fn is_some_fault(faults: FaultSet) -> bool
    ensures { result ≡ may_fault faults }
{
    faults.has(RunFault::Divide)
        || faults.has(RunFault::Uninit)
        || faults.has(RunFault::Mixed)
        || faults.has(RunFault::Bounds)
        || faults.has(RunFault::Dead)
        || faults.has(RunFault::Kind)
        || faults.has(RunFault::Pointers)
}

/// Collects the trace where the node may fault.
fn collect_faults<R: Recorder>(
    alloc: Global,
    outline: &Outline,
    recorder: &R,
    book: &mut R::Book,
    node: u32,
    faults: FaultSet,
) -> Result<(), AllocError>
    requires suits { R.recording.suits outline.now }
    requires recorder { R.recording.is_of outline.now recorder.now }
    requires book { R.recording.book_is_of outline.now book.old }
    requires node { node < length outline.now.nodes }
    ensures { OnOk result (book.new ≡ book_at_faults R.recording outline.now recorder.now node book.old faults) }
{
    if is_some_fault(faults) {
        recorder.finish(alloc, outline, book, node)?;
    }
    Ok(())
}

/// The step of a place. What is over is collected in the book.
fn followed<S: Stepper, R: Recorder>(
    alloc: Global,
    stepper: &S,
    outline: &Outline,
    place: Place<S::State, R>,
    book: &mut R::Book,
) -> Result<Outcome<S::State, R>, AllocError>
    requires suits { R.recording.suits outline.now }
    requires along { IsAlong S.State S.Concrete (shape_of outline.now) (S.machine stepper.now) }
    requires book { R.recording.book_is_of outline.now book.old }
    requires placed { IsPlaced outline.now (S.machine stepper.now) R.recording (2 ^ 32 - 3) place }
    ensures faults { IfOk result (λ out. out.faults ≡ (S.machine stepper.now).faults place.node place.state) }
    ensures places { IfOk result
        (λ out. out.places.items
        ≡ spread_spots R.recording outline.now place.position place.recorder place.node
        (book_at_faults R.recording outline.now place.recorder place.node book.old
        ((S.machine stepper.now).faults place.node place.state))
        ((S.machine stepper.now).next place.node place.state)) }
    ensures book { OnOk result
        (book.new
        ≡ spread_book R.recording outline.now place.recorder place.node
        (book_at_faults R.recording outline.now place.recorder place.node book.old
        ((S.machine stepper.now).faults place.node place.state))
        ((S.machine stepper.now).next place.node place.state)) }
{
    outline.kept();
    let Place {
        node,
        position,
        state,
        recorder,
    } = place;
    let Stepped { next, faults } = stepper.step_owned(alloc, node, state)?;
    collect_faults(alloc, outline, &recorder, book, node, faults)?;
    let places = spread(alloc, outline, node, position, recorder, book, next)?;
    Ok(Outcome { places, faults })
}

/// Whether 32 bits number so many places and as many more.
fn have_room(places: usize, more: usize) -> bool
    requires { places < 2 ^ 32 }
    ensures { IsTrue result ↔ places + more < 2 ^ 32 }
{
    more <= u32::MAX as usize - places
}

/// Steps a place of a line: its successors take its room. Answers its node, and the faults there.
///
/// A line of more than 4,294,967,295 places is want of memory, and none of fewer is, where no allocation is refused.
pub fn step_place<S: Stepper, R: Recorder>(
    alloc: Global,
    stepper: &S,
    outline: &Outline,
    places: &mut Line<Place<S::State, R>>,
    book: &mut R::Book,
    at: usize,
) -> Result<(u32, FaultSet), AllocError>
    requires at { at < length places.old }
    requires few { length places.old < 2 ^ 32 }
    requires suits { R.recording.suits outline.now }
    requires along { IsAlong S.State S.Concrete (shape_of outline.now) (S.machine stepper.now) }
    requires book { R.recording.book_is_of outline.now book.old }
    requires placed { (spot : Spot S.State R) → slice_get places.old at ≡ Some spot
        → IsPlaced outline.now (S.machine stepper.now) R.recording (2 ^ 32 - 3) spot }
    ensures told { IfOk result
        (λ told. (spot : Spot S.State R) → slice_get places.old at ≡ Some spot
        → (told.0 ≡ spot.node) × (told.1 ≡ (S.machine stepper.now).faults spot.node spot.state)) }
    ensures places { OnOk result
        ((spot : Spot S.State R) → slice_get places.old at ≡ Some spot
        → places.new
        ≡ take at places.old
        ++ (spread_spots R.recording outline.now spot.position spot.recorder spot.node
        (book_at_faults R.recording outline.now spot.recorder spot.node book.old
        ((S.machine stepper.now).faults spot.node spot.state)) ((S.machine stepper.now).next spot.node spot.state)
        ++ drop (suc at) places.old)) }
    ensures book { OnOk result
        ((spot : Spot S.State R) → slice_get places.old at ≡ Some spot
        → book.new
        ≡ spread_book R.recording outline.now spot.recorder spot.node
        (book_at_faults R.recording outline.now spot.recorder spot.node book.old
        ((S.machine stepper.now).faults spot.node spot.state)) ((S.machine stepper.now).next spot.node spot.state)) }
    ensures few { OnOk result (length places.new < 2 ^ 32) }
{
    let place = places.take(at)?;
    let node = place.node;
    let Outcome {
        places: made,
        faults,
    } = followed(alloc, stepper, outline, place, book)?;
    if !have_room(places.len(), made.len()) {
        return Err(AllocError);
    }
    put_all(places, at, made)?;
    Ok((node, faults))
}
