//! Frames: names that stand twice, exports, and what frames hold at first.

ghost use Rattle.std.specs.Prelude.{◌≡◌, [], map};
ghost use Rattle.std.specs.List.{flat_map};
ghost use Rattle.std.specs.Option.{option_map};
ghost use Rattle.alf_program.specs.Tree.{allocation_of, initial_of};
ghost use Rattle.alf_faults.specs.Fault.{each_from, earliest};
ghost use Rattle.alf_faults.specs.FoundFaults.{told};
ghost use Rattle.alf_faults.specs.Duplicates.{frame_duplicates};
ghost use Rattle.alf_faults.specs.Sizes.{is_export_size, start_fits};
ghost use Rattle.alf_faults.specs.Faults.{export_faults, start_faults};

use crate::findings::{Found, is_exactly};
use crate::places::frame_named;
use alf_program::{Alloc, Init};
use flow_base::Name;

/// The first frame whose name is taken, or that one of the others or an earlier frame has.
pub fn repeated_frame<'a>(
    taken: &[Alloc],
    others: &[Alloc],
    frames: &'a [Alloc],
) -> Option<Found<'a>>
    ensures { option_map told result ≡ earliest (each_from (frame_duplicates
        (map allocation_of taken.now) (map allocation_of others.now) (map allocation_of frames.now))
        0 (map allocation_of frames.now)) }
{
    for (place, frame) in frames.iter().enumerate() {
        let name = frame.name.bytes();
        if frame_named(taken, name).is_some()
            || frame_named(others, name).is_some()
            || !is_exactly(place, frame_named(frames, name))
        {
            return Some(Found::Duplicate(&frame.name));
        }
    }
    None
}

/// The first export that is no frame, or has a size that may not be exported.
#[tactic(auto, using(crate::proofs::EarliestFaults::earliest_faults))]
pub fn export_fault<'a>(frames: &[Alloc], exports: &'a [Name]) -> Option<Found<'a>>
    ensures { option_map told result
        ≡ earliest (flat_map (export_faults (map allocation_of frames.now)) exports.now) }
{
    for name in exports {
        if let Some(found) = export_fault_at(frames, name) {
            return Some(found);
        }
    }
    None
}

// The fault of one export.
#[tactic(auto, using(crate::proofs::Reading::read_of))]
fn export_fault_at<'a>(frames: &[Alloc], name: &'a Name) -> Option<Found<'a>>
    ensures { option_map told result ≡ earliest (export_faults (map allocation_of frames.now) name.now) }
{
    let Some(place) = frame_named(frames, name.bytes()) else {
        return Some(Found::Unknown(name));
    };
    if is_export_size(frames[place].bits) {
        None
    } else {
        Some(Found::Size(name, None))
    }
}

// Whether a frame of so many bits may be exported.
fn is_export_size(bits: u32) -> bool
    ensures { result ≡ is_export_size bits }
{
    bits == 8 || bits == 16 || bits == 32 || bits == 64
}

/// The first number that no frame holds at first, or that does not fit its frame.
#[tactic(auto, using(crate::proofs::EarliestFaults::earliest_faults))]
pub fn start_fault<'a>(frames: &[Alloc], inits: &'a [Init]) -> Option<Found<'a>>
    ensures { option_map told result
        ≡ earliest (flat_map (start_faults (map allocation_of frames.now)) (map initial_of inits.now)) }
{
    for init in inits {
        if let Some(found) = start_fault_at(frames, init) {
            return Some(found);
        }
    }
    None
}

// The fault of one number.
#[tactic(auto, using(crate::proofs::Reading::read_of))]
fn start_fault_at<'a>(frames: &[Alloc], init: &'a Init) -> Option<Found<'a>>
    ensures { option_map told result
        ≡ earliest (start_faults (map allocation_of frames.now) (initial_of init.now)) }
{
    let Some(place) = frame_named(frames, init.name.bytes()) else {
        return Some(Found::Unknown(&init.name));
    };
    if start_fits(frames[place].bits, init) {
        None
    } else {
        Some(Found::Size(&init.name, None))
    }
}

// Whether the number is of whole bytes and lies in a frame of so many bits.
fn start_fits(bits: u32, init: &Init) -> bool
    ensures { result ≡ start_fits bits (initial_of init.now) }
{
    let size = init.num.size;
    size % 8 == 0 && 8 * u64::from(init.offset) + u64::from(size) <= u64::from(bits)
}
