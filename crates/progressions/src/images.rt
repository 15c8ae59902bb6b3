//! Images of progressions under arithmetic.

ghost use Rattle.std.specs.Prelude.{◌≡◌, pos, neg_ℤ, ◌+ℤ◌, ◌*ℤ◌, ◌<ℤ◌};
ghost use Rattle.std.specs.Int.{w128};
ghost use Rattle.std.specs.Int.RustNames.{FitsSigned};
ghost use Rattle.progressions.specs.Images.{moved as moved_by, negated as negated_of, sums as sums_of};
ghost use Rattle.progressions.specs.Images.{differences as differences_of, products as products_of};
ghost use Rattle.progressions.specs.Images.{multiples as multiples_of, quotients as quotients_of};
ghost use Rattle.progressions.specs.Images.{quotient_step as quotient_step_of};
ghost use Rattle.progressions.specs.Limits.{IsSmall, AreFactors};

use crate::ends::Progression;
use whole_numbers::Whole;

/// The step of the quotients by a divisor above 0.
fn quotient_step(divisor: Whole, step: Whole) -> Whole
    requires { pos 0 <ℤ divisor }
    ensures { result ≡ quotient_step_of divisor step }
{
    if step.rest(divisor).at_most(Whole::of(0)) {
        step.quotient(divisor)
    } else {
        Whole::of(1)
    }
}

impl Progression {
    /// Each number and `by`.
    pub fn moved(&self, by: Whole) -> Progression
        requires lo { FitsSigned w128 (self.now.lo +ℤ by) }
        requires hi { FitsSigned w128 (self.now.hi +ℤ by) }
        ensures { result ≡ moved_by by self.now }
    {
        Progression {
            lo: self.lo + by,
            hi: self.hi + by,
            step: self.step,
        }
    }

    /// Each number with the other sign.
    pub fn negated(&self) -> Progression
        requires lo { FitsSigned w128 (neg_ℤ self.now.lo) }
        requires hi { FitsSigned w128 (neg_ℤ self.now.hi) }
        ensures { result ≡ negated_of self.now }
    {
        Progression {
            lo: -self.hi,
            hi: -self.lo,
            step: self.step,
        }
    }

    /// The sums of a number of each.
    #[tactic(auto, unfolding(crate::specs::Images::sums), using(whole_numbers::specs::GcdLaws::gcd_fits))]
    pub fn sums(&self, other: &Progression) -> Progression
        requires small { IsSmall self.now }
        requires other { IsSmall other.now }
        ensures { result ≡ sums_of self.now other.now }
    {
        let step = self.step.common_divisor(other.step);
        Progression::from_to(self.lo + other.lo, self.hi + other.hi, step)
    }

    /// The differences of a number of the first and one of the second.
    #[tactic(auto, unfolding(crate::specs::Images::differences), using(whole_numbers::specs::GcdLaws::gcd_fits))]
    pub fn differences(&self, other: &Progression) -> Progression
        requires small { IsSmall self.now }
        requires other { IsSmall other.now }
        ensures { result ≡ differences_of self.now other.now }
    {
        let step = self.step.common_divisor(other.step);
        Progression::from_to(self.lo - other.hi, self.hi - other.lo, step)
    }

    /// The products of a number of each.
    #[tactic(auto, unfolding(crate::specs::Images::products), using(whole_numbers::specs::GcdLaws::gcd_fits, whole_numbers::specs::GcdLaws::gcd_fits_three))]
    pub fn products(&self, other: &Progression) -> Progression
        requires { AreFactors self.now other.now }
        ensures { result ≡ products_of self.now other.now }
    {
        let (a, b) = (self.lo * other.lo, self.lo * other.hi);
        let (c, d) = (self.hi * other.lo, self.hi * other.hi);
        let ends = (self.lo * other.step).common_divisor(other.lo * self.step);
        let step = ends.common_divisor(self.step * other.step);
        Progression::from_to(
            a.least(b).least(c.least(d)),
            a.greatest(b).greatest(c.greatest(d)),
            step,
        )
    }

    /// Each number times a factor that is not negative.
    #[tactic(auto, unfolding(crate::specs::Images::multiples))]
    pub fn multiples(&self, factor: Whole) -> Progression
        requires lo { FitsSigned w128 (self.now.lo *ℤ factor) }
        requires hi { FitsSigned w128 (self.now.hi *ℤ factor) }
        requires step { FitsSigned w128 (self.now.step *ℤ factor) }
        ensures { result ≡ multiples_of factor self.now }
    {
        Progression::from_to(self.lo * factor, self.hi * factor, self.step * factor)
    }

    /// Each number divided by a divisor above 0, rounded down.
    #[tactic(auto, unfolding(crate::specs::Images::quotients))]
    pub fn quotients(&self, divisor: Whole) -> Progression
        requires { pos 0 <ℤ divisor }
        ensures { result ≡ quotients_of divisor self.now }
    {
        let (lo, hi) = (self.lo.quotient(divisor), self.hi.quotient(divisor));
        Progression::from_to(lo, hi, quotient_step(divisor, self.step))
    }
}
