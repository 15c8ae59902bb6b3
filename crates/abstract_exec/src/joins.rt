//! Joins of places.

ghost use Rattle.std.specs.Prelude.{◌≡◌, ◌<◌, ◌↔◌, length, remove, slice_get, slice_set, Some, IsTrue, IfOk, OnOk};
ghost use Rattle.worklist_rules.specs.Pools.{Spot};
ghost use Rattle.worklist_rules.specs.Events.{met};

use crate::place::Place;
use domain_core::{Lattice, Recorder};
use std::alloc::{AllocError, Global};
use worklist::Line;

/// Whether two places of a line have one position.
pub fn is_same_position<T: Drop, R: Drop>(places: &Line<Place<T, R>>, i: usize, j: usize) -> bool
    requires first { i < length places.now }
    requires second { j < length places.now }
    ensures { (a b : Spot T R) → slice_get places.now i ≡ Some a → slice_get places.now j ≡ Some b
        → IsTrue result ↔ (a.position ≡ b.position) }
{
    places.at(i).position.as_slice() == places.at(j).position.as_slice()
}

/// Whether two places of a line, the first before the second, have one position.
pub fn are_one_position<T: Drop, R: Drop>(places: &Line<Place<T, R>>, i: usize, j: usize) -> bool
    ensures { IsTrue result
        ↔ ((a b : Spot T R) × (i < j) × (slice_get places.now i ≡ Some a) × (slice_get places.now j ≡ Some b)
        × (a.position ≡ b.position)) }
{
    if i >= j || j >= places.len() {
        return false;
    }
    is_same_position(places, i, j)
}

/// The join of two places. It keeps the node and the position of the first.
fn joined<T: Lattice + Drop, R: Recorder>(
    alloc: Global,
    first: Place<T, R>,
    second: &Place<T, R>,
) -> Result<Place<T, R>, AllocError>
    requires states { T.order.alike first.state second.now.state }
    requires recorders { R.order.alike first.recorder second.now.recorder }
    ensures { IfOk result (λ place. place ≡ met T.order R.order first second.now) }
{
    let state = first.state.join(alloc, &second.state)?;
    let recorder = first.recorder.join(alloc, &second.recorder)?;
    Ok(Place {
        node: first.node,
        position: first.position,
        state,
        recorder,
    })
}

/// Puts the join of two places in the room of the first, and takes the second out.
pub fn merge_places<T: Lattice + Drop, R: Recorder>(
    alloc: Global,
    places: &mut Line<Place<T, R>>,
    i: usize,
    j: usize,
) -> Result<(), AllocError>
    requires before { i < j }
    requires within { j < length places.old }
    requires alike { (a b : Spot T R) → slice_get places.old i ≡ Some a → slice_get places.old j ≡ Some b
        → T.order.alike a.state b.state × R.order.alike a.recorder b.recorder }
    ensures { OnOk result
        ((a b : Spot T R) → slice_get places.old i ≡ Some a → slice_get places.old j ≡ Some b
        → places.new ≡ remove (slice_set places.old i (met T.order R.order a b)) j) }
{
    let second = places.take(j)?;
    let first = places.take(i)?;
    let place = joined(alloc, first, &second)?;
    places.put(i, place)
}
