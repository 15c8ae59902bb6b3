//! Progressions placed with their low end in the signed range of a size.

ghost use Rattle.std.specs.Prelude.{◌≡◌, ◌≤◌, ◌^◌, pos, neg_ℤ, ◌≤ℤ◌, ◌<ℤ◌};
ghost use Rattle.progressions.specs.Progressions.{full, half};
ghost use Rattle.strided_rules.specs.Strides.{centered, norm, whole as whole_of};

use progressions::Progression;
use whole_numbers::Whole;

/// 2 to the size.
#[tactic(auto, using(progressions::specs::ProgressionLaws::full_most))]
pub fn power(size: u32) -> Whole
    requires { size ≤ 64 }
    ensures value { result ≡ full size }
    ensures most { result ≤ℤ pos (2 ^ 64) }
    ensures rising { pos 0 ≤ℤ result }
{
    Whole::power_of_two(size)
}

/// The number of the signed range that is n modulo 2 to the size, by a division.
#[tactic(auto, using(progressions::specs::ProgressionLaws::halves))]
fn wrapped(size: u32, n: Whole) -> Whole
    requires least { 1 ≤ size }
    requires most { size ≤ 64 }
    requires low { neg_ℤ (pos (2 ^ 126)) ≤ℤ n }
    requires high { n <ℤ pos (2 ^ 126) }
    ensures value { result ≡ centered size n }
    ensures low { neg_ℤ (half size) ≤ℤ result }
    ensures high { result <ℤ half size }
{
    let half = power(size - 1);
    (n + half).rest(power(size)) - half
}

/// The same, without a division where n lies in the range, as most numbers do.
#[tactic(auto, using(progressions::specs::ProgressionLaws::halves, crate::proofs::Central::is_central))]
fn center(size: u32, n: Whole) -> Whole
    requires least { 1 ≤ size }
    requires most { size ≤ 64 }
    requires low { neg_ℤ (pos (2 ^ 126)) ≤ℤ n }
    requires high { n <ℤ pos (2 ^ 126) }
    ensures value { result ≡ centered size n }
    ensures low { neg_ℤ (half size) ≤ℤ result }
    ensures high { result <ℤ half size }
{
    let half = power(size - 1);
    if (-half).at_most(n) && !half.at_most(n) {
        n
    } else {
        wrapped(size, n)
    }
}

/// Every number of the signed range.
pub fn whole(size: u32) -> Progression
    requires least { 1 ≤ size }
    requires most { size ≤ 64 }
    ensures { result ≡ whole_of size }
{
    let half = power(size - 1);
    Progression {
        lo: -half,
        hi: half - Whole::of(1),
        step: Whole::of(1),
    }
}

/// The progression with its low end in the signed range; every number where it goes round.
#[tactic(auto, unfolding(strided_rules::specs::Strides::norm), using(progressions::specs::ProgressionLaws::halves))]
pub fn normed(size: u32, p: &Progression) -> Progression
    requires least { 1 ≤ size }
    requires most { size ≤ 64 }
    requires order { p.now.lo ≤ℤ p.now.hi }
    requires low { neg_ℤ (pos (2 ^ 126)) ≤ℤ p.now.lo }
    requires high { p.now.hi <ℤ pos (2 ^ 126) }
    ensures { result ≡ norm size p.now }
{
    if power(size).at_most(p.hi - p.lo) {
        whole(size)
    } else {
        p.moved(center(size, p.lo) - p.lo)
    }
}
