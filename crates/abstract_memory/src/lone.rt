//! Addresses that mean one cell alone.

ghost use Rattle.std.specs.Prelude.{◌≡◌, IfSome};
ghost use Rattle.alf_check.specs.Shapes.{shapes_of};
ghost use Rattle.pointer_rules.specs.Covering.{IsValue};
ghost use Rattle.memory_rules.specs.Covers.{IsCellSize};
ghost use Rattle.abstract_memory.specs.Running.{runs_in};
ghost use Rattle.abstract_memory.specs.OnlyCells.{IsOnlyCell, IsOnlyOffset, IsOnlyPlace};

use crate::cell::has_cell;
use alf_check::FrameRow;
use interval_congruence::Strided;
use pointer_domain::AVal;

/// The one offset, where there is one alone.
fn lone_offset(offsets: Strided) -> Option<u32>
    requires { offsets.size ≡ 32 }
    ensures { IfSome result (IsOnlyOffset offsets) }
{
    // Only a value in normal form has none but its own words.
    let _numbers = offsets.numbers();
    if offsets.is_one() {
        Some(offsets.word() as u32)
    } else {
        None
    }
}

/// The one pointer that the address means, if it means one alone: its frame and its offset.
fn lone_place(at: &AVal) -> Option<(u32, u32)>
    ensures { IfSome result (IsOnlyPlace at.now) }
{
    if at.int().is_some() {
        return None;
    }
    match at.at() {
        [place] => {
            let offset = lone_offset(place.1)?;
            Some((place.0, offset))
        }
        _ => None,
    }
}

/// The one cell that the address means, where it is one pointer alone, to a cell that fits an active frame. Takes no
/// memory.
pub fn lone_cell(rows: &[FrameRow], running: &[bool], at: &AVal, size: u32) -> Option<(u32, u32)>
    requires address { IsValue 32 at.now }
    requires size { IsCellSize size }
    ensures { IfSome result (IsOnlyCell (shapes_of rows.now) (runs_in running.now) at.now size) }
{
    let (frame, offset) = lone_place(at)?;
    if has_cell(rows, running, frame, offset, size) {
        Some((frame, offset))
    } else {
        None
    }
}
