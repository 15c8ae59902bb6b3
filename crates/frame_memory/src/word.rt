//! Words of bytes.

ghost use Rattle.std.specs.Prelude.{◌≡◌, ◌+◌, ◌*◌, ◌≤◌, ◌<◌, ◌^◌, IfSome, map};
ghost use Rattle.std.specs.List.{list_any};
ghost use Rattle.alf_ops.specs.Histories.{offsets};
ghost use Rattle.domain_core.specs.WordSets.{IsOfSize};
ghost use Rattle.strided_rules.specs.Domains.{stride_sets};
ghost use Rattle.memory_rules.specs.AbstractSets.{above_byte, abstract_sets};
ghost use Rattle.memory_rules.specs.Covers.{FrameSized};
ghost use Rattle.memory_rules.specs.Frames.{values_in};
ghost use Rattle.memory_model.specs.HeldFrames.{frame_of};
ghost use Rattle.frame_memory.specs.LoadedResults.{word_in};

use crate::byte::byte_of;
use alf_ops::Op;
use domain_core::Domain;
use interval_congruence::Strided;
use memory_pages::FrameSlots;

/// Each of the high words with a byte below it.
fn above(high: Strided, low: Strided) -> Strided
    requires low { low.size ≡ 8 }
    requires high { high.size ≤ 56 }
    ensures { result ≡ above_byte high low }
{
    let sizes = [high.size(), low.size()];
    let words = [high, low];
    match Strided::apply(Op::Conc, &sizes, &words).value {
        None => Strided::one_word(1, 0),
        Some(word) => word,
    }
}

/// The word of so many bytes from a place on, the lowest first, if each has words.
pub(crate) fn word_of_bytes(slots: &FrameSlots, place: usize, count: u32) -> Option<Strided>
    requires some { 1 ≤ count }
    requires most { count ≤ 8 }
    requires place { place + count < 2 ^ 64 }
    requires sized { FrameSized abstract_sets (frame_of slots.now) }
    ensures word { result ≡ word_in (values_in (map (frame_of slots.now).bytes (offsets place count))) }
    ensures sized { IfSome result (IsOfSize stride_sets (count * 8)) }
{
    let low = byte_of(slots, place).value?;
    if count == 1 {
        return Some(low);
    }
    let high = word_of_bytes(slots, place + 1, count - 1)?;
    Some(above(high, low))
}

/// One of so many bytes from a place on is perhaps of a pointer.
pub(crate) fn some_pointer(slots: &FrameSlots, place: usize, count: u32) -> bool
    requires { place + count < 2 ^ 64 }
    ensures { result ≡ list_any (λ byte. byte.p) (map (frame_of slots.now).bytes (offsets place count)) }
{
    count != 0 && (byte_of(slots, place).p || some_pointer(slots, place + 1, count - 1))
}
