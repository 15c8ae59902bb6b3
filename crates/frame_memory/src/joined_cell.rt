//! Cells joined.

ghost use Rattle.std.specs.Prelude.{◌≡◌, true, IfOk, is_some, ◌||◌};
ghost use Rattle.pointer_rules.specs.AbstractValues.{joined};
ghost use Rattle.memory_rules.specs.AbstractSets.{abstract_sets};
ghost use Rattle.memory_rules.specs.Covers.{FrameSized};
ghost use Rattle.memory_rules.specs.Frames.{either, join_cells};
ghost use Rattle.memory_model.specs.HeldFrames.{cell_held, frame_of, is_cell_size};
ghost use Rattle.frame_memory.specs.FrameJoins.{SuitValues, join_of, seen};

use crate::cell::{kept_cell, standing_cell};
use domain_core::Lattice;
use memory_pages::{FrameSlots, Held};
use pointer_domain::AVal;
use std::alloc::{AllocError, Global};

/// A copy of the value, if there is one.
fn copied(alloc: Global, value: &Option<AVal>) -> Result<Option<AVal>, AllocError>
    ensures { IfOk result (λ copy. copy ≡ value.now) }
{
    match value {
        None => Ok(None),
        Some(value) => Ok(Some(value.copy(alloc)?)),
    }
}

/// The join of the values where both have some.
fn joined_value(
    alloc: Global,
    a: &Option<AVal>,
    b: &Option<AVal>,
) -> Result<Option<AVal>, AllocError>
    requires { SuitValues a.now b.now }
    ensures { IfOk result (λ value. value ≡ either joined a.now b.now) }
{
    match (a, b) {
        (Some(first), Some(second)) => Ok(Some(first.join(alloc, second)?)),
        (Some(_), None) => copied(alloc, a),
        (None, _) => copied(alloc, b),
    }
}

/// The cell of the join, of the cells as they stand.
fn joined_held(alloc: Global, a: &Held, b: &Held) -> Result<Held, AllocError>
    requires { SuitValues a.now.value b.now.value }
    ensures { IfOk result (λ cell. seen cell ≡ join_cells abstract_sets (seen a.now) (seen b.now)) }
{
    Ok(Held {
        value: joined_value(alloc, &a.value, &b.value)?,
        u: a.u || b.u,
        x: a.x || b.x,
    })
}

/// The cell is kept on one of the sides.
fn is_kept(a: &FrameSlots, b: &FrameSlots, place: u32, size: u32) -> bool
    requires { is_cell_size size ≡ true }
    ensures { result ≡ (is_some ((frame_of a.now).cells place size) || is_some ((frame_of b.now).cells place size)) }
{
    kept_cell(a, place, size).is_some() || kept_cell(b, place, size).is_some()
}

/// The cell of the join, where one of the sides keeps it.
pub(crate) fn joined_cell(
    alloc: Global,
    a: &FrameSlots,
    b: &FrameSlots,
    place: u32,
    size: u32,
) -> Result<Option<Held>, AllocError>
    requires size { is_cell_size size ≡ true }
    requires first { FrameSized abstract_sets (frame_of a.now) }
    requires second { FrameSized abstract_sets (frame_of b.now) }
    ensures { IfOk result (λ cell. cell ≡ cell_held ((join_of a.now b.now).cells place size)) }
{
    if is_kept(a, b, place, size) {
        let first = standing_cell(alloc, a, place, size)?;
        let second = standing_cell(alloc, b, place, size)?;
        Ok(Some(joined_held(alloc, &first, &second)?))
    } else {
        Ok(None)
    }
}
