//! Frames that an input may be of.

ghost use Rattle.std.specs.Prelude.{◌≡◌, ◌<◌, ◌+◌, ◌^◌, length};
ghost use Rattle.alf_check.specs.CheckedPrograms.{seen};
ghost use Rattle.cost_table.specs.Inputs.{frame_from, input_frame, is_input_frame};

use alf_check::{Checked, FrameRow};

// The number of the frame of this name among the global frames and the arguments of the root.
pub fn input_frame(checked: &Checked, name: &str) -> Option<u32>
    ensures { result ≡ input_frame (seen checked.now) name.now }
{
    let args = checked.func(checked.root()).args.as_slice();
    checked.keeps();
    frame_from(args, name, 0, checked.frames())
}

// The number of the first of the frames that has the name and is global or among the arguments, where
// the first of all has this number.
fn frame_from(args: &[u32], name: &str, first: u32, frames: &[FrameRow]) -> Option<u32>
    requires { first + length frames.now < 2 ^ 32 }
    ensures { result ≡ frame_from args.now name.now first frames.now }
{
    let (frame, others) = frames.split_first()?;
    if is_input_frame(args, name, first, frame) {
        return Some(first);
    }
    frame_from(args, name, first + 1, others)
}

// The frame of this number has the name and is global or among the arguments.
fn is_input_frame(args: &[u32], name: &str, number: u32, frame: &FrameRow) -> bool
    ensures { result ≡ is_input_frame args.now name.now number frame.now }
{
    if frame.name.bytes() != name.as_bytes() {
        return false;
    }
    frame.owner.is_none() || args.contains(&number)
}
