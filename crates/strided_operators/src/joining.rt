//! Joins of two progressions in normal form.

ghost use Rattle.std.specs.Prelude.{◌≡◌, ◌≤◌, ◌-ℤ◌};
ghost use Rattle.progressions.specs.Progressions.{full, hull as hull_of};
ghost use Rattle.progressions.specs.Images.{moved as moved_by};
ghost use Rattle.progressions.specs.Limits.{AreNear, IsSmall};
ghost use Rattle.strided_rules.specs.Strides.{shorter as shorter_of, join as join_of};

use crate::placing::{normed, power};
use progressions::Progression;
use whole_numbers::Whole;

/// How far the ends of the hull of two are apart.
#[tactic(auto, unfolding(progressions::specs::Progressions::hull))]
fn width(p: &Progression, q: &Progression) -> Whole
    requires p { AreNear p.now }
    requires q { AreNear q.now }
    ensures { result ≡ (hull_of p.now q.now).hi -ℤ (hull_of p.now q.now).lo }
{
    p.hi.greatest(q.hi) - p.lo.least(q.lo)
}

/// The shortest hull of the two as they are, with the first moved up and with the second moved up. The
/// others are not made.
fn shortest(p: &Progression, q: &Progression, p_up: &Progression, q_up: &Progression) -> Progression
    requires p { IsSmall p.now }
    requires q { IsSmall q.now }
    requires p_up { AreNear p_up.now }
    requires q_up { AreNear q_up.now }
    requires p_step { p_up.now.step ≡ p.now.step }
    requires q_step { q_up.now.step ≡ q.now.step }
    ensures value { result
        ≡ shorter_of (shorter_of (hull_of p.now q.now) (hull_of p_up.now q.now)) (hull_of p.now q_up.now) }
    ensures near { AreNear result }
{
    let (first, second, third) = (width(p, q), width(p_up, q), width(p, q_up));
    if second.below(first) {
        if third.below(second) {
            p.hull(q_up)
        } else {
            p_up.hull(q)
        }
    } else if third.below(first) {
        p.hull(q_up)
    } else {
        p.hull(q)
    }
}

/// The progression moved up by 2 to the size.
fn raised(size: u32, p: &Progression) -> Progression
    requires most { size ≤ 64 }
    requires p { IsSmall p.now }
    ensures value { result ≡ moved_by (full size) p.now }
    ensures near { AreNear result }
{
    p.moved(power(size))
}

/// The shortest of the three hulls, in normal form.
#[tactic(auto, unfolding(strided_rules::specs::Strides::join))]
pub fn joined(size: u32, p: &Progression, q: &Progression) -> Progression
    requires least { 1 ≤ size }
    requires most { size ≤ 64 }
    requires p { IsSmall p.now }
    requires q { IsSmall q.now }
    ensures { result ≡ join_of size p.now q.now }
{
    let p_up = raised(size, p);
    let q_up = raised(size, q);
    normed(size, &shortest(p, q, &p_up, &q_up))
}
