//! One part of a value.

use interval_congruence::Strided;

/// Words, or offsets in one frame.
#[derive(Clone, Copy, Drop)]
pub enum Part {
    Int(Strided),
    At(u32, Strided),
}
