//! The faults of an address.

ghost use Rattle.std.specs.Prelude.{◌≡◌, ◌≤◌, ◌↔◌, true, slice_get};
ghost use Rattle.alf_ops.specs.declared.history.RunFault.{RunFault};
ghost use Rattle.alf_check.specs.Shapes.{shapes_of};
ghost use Rattle.domain_core.specs.FaultSets.{has_fault};
ghost use Rattle.pointer_rules.specs.AbstractValues.{IsPlace, ArePlaces};
ghost use Rattle.memory_rules.specs.Addresses.{IsAddressFault};
ghost use Rattle.abstract_memory.specs.Running.{runs_in};
ghost use Rattle.abstract_memory.specs.PlaceFaults.{IsPlaceFault, IsFaultOf, IsWordFault, IsBoundsFault};

use crate::active::active_bits;
use crate::offsets::{first_past, next_offset};
use alf_check::FrameRow;
use alf_ops::RunFault;
use domain_core::FaultSet;
use interval_congruence::Strided;
use pointer_domain::AVal;

/// A word is no address.
fn word_fault(words: Option<Strided>) -> FaultSet
    ensures { (fault : RunFault) → (has_fault result fault ≡ true) ↔ IsWordFault words fault }
{
    match words {
        None => FaultSet::none(),
        Some(_) => FaultSet::none().with(RunFault::Kind),
    }
}

/// The fault of a pointer to a cell past the last that fits, if there is one.
fn bounds_fault(members: Strided, bits: u32, size: u32) -> FaultSet
    requires members { members.size ≡ 32 }
    requires some { 8 ≤ size }
    ensures { (fault : RunFault) → (has_fault result fault ≡ true) ↔ IsBoundsFault members bits size fault }
{
    match next_offset(members, first_past(bits, size)) {
        None => FaultSet::none(),
        Some(_) => FaultSet::none().with(RunFault::Bounds),
    }
}

/// The faults of pointers into one frame.
fn place_fault(rows: &[FrameRow], running: &[bool], place: &(u32, Strided), size: u32) -> FaultSet
    requires place { IsPlace place.now }
    requires some { 8 ≤ size }
    ensures { (fault : RunFault)
        → (has_fault result fault ≡ true)
        ↔ IsPlaceFault (slice_get (shapes_of rows.now) place.now.0) (runs_in running.now) place.now size fault }
{
    match active_bits(rows, running, place.0) {
        None => FaultSet::none().with(RunFault::Dead),
        Some(bits) => bounds_fault(place.1, bits, size),
    }
}

/// The faults of pointers.
fn place_faults(
    rows: &[FrameRow],
    running: &[bool],
    places: &[(u32, Strided)],
    size: u32,
) -> FaultSet
    requires places { ArePlaces places.now }
    requires some { 8 ≤ size }
    ensures { (fault : RunFault)
        → (has_fault result fault ≡ true) ↔ IsFaultOf (shapes_of rows.now) (runs_in running.now) places.now size fault }
{
    match places.split_first() {
        None => FaultSet::none(),
        Some((first, others)) => {
            let own = place_fault(rows, running, first, size);
            own.union(place_faults(rows, running, others, size))
        }
    }
}

/// The faults of the addresses: a word is `Kind`, a pointer into a frame that is not active `Dead`, and one to a
/// cell that does not fit `Bounds`. Takes no memory.
pub fn address_faults(rows: &[FrameRow], running: &[bool], at: &AVal, size: u32) -> FaultSet
    requires some { 8 ≤ size }
    requires few { size ≤ 64 }
    ensures { (fault : RunFault)
        → (has_fault result fault ≡ true)
        ↔ IsAddressFault (shapes_of rows.now) (runs_in running.now) at.now size fault }
{
    let own = word_fault(at.int());
    own.union(place_faults(rows, running, at.at(), size))
}
