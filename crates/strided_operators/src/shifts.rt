//! Numbers shifted to higher places.

ghost use Rattle.std.specs.Prelude.{◌≡◌, ◌≤◌, ◌<◌};
ghost use Rattle.progressions.specs.Progressions.{IsPlaced, full};
ghost use Rattle.progressions.specs.Images.{multiples as multiples_of};
ghost use Rattle.strided_rules.specs.Strides.{norm};

use crate::placing::{normed, power, whole};
use progressions::Progression;

/// The numbers times 2 to the bits, in normal form.
///
/// What is shifted out of the size is taken off first, since the multiples may leave 128 bits.
pub fn shifted_left(size: u32, bits: u32, p: &Progression) -> Progression
    requires most { size ≤ 64 }
    requires below { bits < size }
    requires p { IsPlaced size p.now }
    ensures { result ≡ norm size (multiples_of (full bits) p.now) }
{
    let kept = size - bits;
    if power(kept).at_most(p.hi - p.lo) {
        whole(size)
    } else {
        let low = normed(kept, p);
        let multiples = low.multiples(power(bits));
        normed(size, &multiples)
    }
}
