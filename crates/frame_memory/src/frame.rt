//! Frames joined.

ghost use Rattle.std.specs.Prelude.{◌≡◌, ◌≤◌, ◌<◌, ◌+◌, ◌^◌, ℕ, IsTrue, IfOk, length, slice_get};
ghost use Rattle.memory_rules.specs.AbstractSets.{abstract_sets};
ghost use Rattle.memory_rules.specs.Covers.{FrameSized};
ghost use Rattle.memory_model.specs.HeldFrames.{frame_of};
ghost use Rattle.memory_model.specs.HeldMemories.{joined_slots};
ghost use Rattle.frame_memory.specs.FrameJoins.{AreCanonical};

use crate::slot::slot_joined;
use crate::slots::put;
use memory_pages::FrameSlots;
use std::alloc::{AllocError, Global};

/// The slots at this place are there and the same.
fn is_same(a: &FrameSlots, b: &FrameSlots, place: usize) -> bool
    ensures { IsTrue result → slice_get a.now place ≡ slice_get b.now place }
{
    match (a.slot(place), b.slot(place)) {
        (Some(first), Some(second)) => first.is_same(second),
        _ => false,
    }
}

/// How many slots from this place on are known to be the same.
fn same_from(a: &FrameSlots, b: &FrameSlots, place: u32) -> u32
    ensures few { result ≤ 32 }
    ensures same { (at : ℕ) → place ≤ at → at < place + result → slice_get a.now at ≡ slice_get b.now at }
{
    let ahead = a.same_ahead(b, place as usize);
    if 0 < ahead && ahead <= 32 {
        ahead as u32
    } else if is_same(a, b, place as usize) {
        1
    } else {
        0
    }
}

/// The join of two frames of so many bytes. The pages that are the same on both sides are shared, and so are those on
/// which each slot of the join is that of the first side.
pub fn joined_frame(
    alloc: Global,
    a: &FrameSlots,
    b: &FrameSlots,
    count: u32,
) -> Result<FrameSlots, AllocError>
    requires small { count + 64 ≤ 2 ^ 32 }
    requires count { length a.now ≡ count }
    requires same { length b.now ≡ count }
    requires canonical { AreCanonical a.now }
    requires first { FrameSized abstract_sets (frame_of a.now) }
    requires second { FrameSized abstract_sets (frame_of b.now) }
    ensures { IfOk result (λ slots. slots ≡ joined_slots a.now b.now) }
{
    let mut slots = a.copy()?;
    let mut place = 0;
    while place < count {
        let same = same_from(a, b, place);
        if same == 0 {
            put(&mut slots, place as usize, slot_joined(alloc, a, b, place)?)?;
            place += 1;
        } else {
            place += same;
        }
    }
    Ok(slots)
}
