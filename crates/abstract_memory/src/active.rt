//! Frames that are active.

ghost use Rattle.std.specs.Prelude.{◌≡◌, slice_get};
ghost use Rattle.alf_check.specs.Shapes.{shapes_of};
ghost use Rattle.memory_rules.specs.Memories.{is_on};
ghost use Rattle.abstract_memory.specs.Running.{runs_in, bits_on};

use alf_check::FrameRow;

/// The frames of this owner are active.
fn is_active(running: &[bool], owner: Option<u32>) -> bool
    ensures { result ≡ is_on (runs_in running.now) owner }
{
    match owner {
        None => true,
        Some(function) => match running.get(function as usize) {
            None => false,
            Some(runs) => *runs,
        },
    }
}

/// How many bits the frame has, if it is active.
pub(crate) fn active_bits(rows: &[FrameRow], running: &[bool], frame: u32) -> Option<u32>
    ensures { result ≡ bits_on (slice_get (shapes_of rows.now) frame) (runs_in running.now) }
{
    let row = rows.get(frame as usize)?;
    if is_active(running, row.owner) {
        Some(row.bits)
    } else {
        None
    }
}
