//! Bytes joined.

ghost use Rattle.std.specs.Prelude.{◌≡◌};
ghost use Rattle.strided_rules.specs.Strides.{joined};
ghost use Rattle.memory_rules.specs.AbstractSets.{abstract_sets};
ghost use Rattle.memory_rules.specs.Frames.{either, join_bytes};
ghost use Rattle.memory_model.specs.HeldFrames.{byte_seen};
ghost use Rattle.frame_memory.specs.FrameJoins.{SuitWords};

use interval_congruence::Strided;
use memory_pages::Byte;

/// The join of the words where both have some.
fn joined_words(a: Option<Strided>, b: Option<Strided>) -> Option<Strided>
    requires { SuitWords a b }
    ensures { result ≡ either joined a b }
{
    match (a, b) {
        (None, b) => b,
        (Some(a), None) => Some(a),
        (Some(a), Some(b)) => Some(a.join(b)),
    }
}

/// The byte of the join.
pub(crate) fn joined_byte(a: Byte, b: Byte) -> Byte
    requires { SuitWords a.value b.value }
    ensures { byte_seen result ≡ join_bytes abstract_sets (byte_seen a) (byte_seen b) }
{
    Byte {
        value: joined_words(a.value, b.value),
        u: a.u || b.u,
        p: a.p || b.p,
    }
}
