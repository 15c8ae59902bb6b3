ghost use Rattle.std.specs.Prelude.{◌≡◌, ◌<◌, map, length, IfSome};
ghost use Rattle.alf_program.specs.Tree.{allocation_of, function_of};
ghost use Rattle.alf_faults.specs.Places.{frame_place, function_place};

use alf_program::{Alloc, Func};

/// The place of the first frame of this name. Takes no memory.
pub fn frame_named(frames: &[Alloc], name: &[u8]) -> Option<usize>
    ensures first { result ≡ frame_place (map allocation_of frames.now) name.now }
    ensures within { IfSome result (λ place. place < length frames.now) }
{
    frames.iter().position(|frame| frame.name.bytes() == name)
}

/// The place of the first function of this name. Takes no memory.
pub fn function_named(funcs: &[Func], name: &[u8]) -> Option<usize>
    ensures first { result ≡ function_place (map function_of funcs.now) name.now }
    ensures within { IfSome result (λ place. place < length funcs.now) }
{
    funcs.iter().position(|func| func.name.bytes() == name)
}
