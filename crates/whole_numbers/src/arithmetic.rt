//! Sums, differences, products and negation: where they fit, and tested.

ghost use Rattle.std.specs.Prelude.{◌≡◌, ◌+ℤ◌, ◌-ℤ◌, ◌*ℤ◌, neg_ℤ, SomeIff};
ghost use Rattle.std.specs.Int.{w128};
ghost use Rattle.std.specs.Int.RustNames.{FitsSigned};

use crate::number::Whole;
use std::ops::{Add, Mul, Neg, Sub};

impl Add for Whole {
    type Output = Whole;

    ghost can_add = { λ a b. FitsSigned w128 (a +ℤ b) };

    ghost add_gives = { λ a b c. c ≡ a +ℤ b };

    fn add(self, other: Whole) -> Whole {
        Whole {
            number: self.number + other.number,
        }
    }
}

impl Sub for Whole {
    type Output = Whole;

    ghost can_sub = { λ a b. FitsSigned w128 (a -ℤ b) };

    ghost sub_gives = { λ a b c. c ≡ a -ℤ b };

    fn sub(self, other: Whole) -> Whole {
        Whole {
            number: self.number - other.number,
        }
    }
}

impl Mul for Whole {
    type Output = Whole;

    ghost can_mul = { λ a b. FitsSigned w128 (a *ℤ b) };

    ghost mul_gives = { λ a b c. c ≡ a *ℤ b };

    fn mul(self, other: Whole) -> Whole {
        Whole {
            number: self.number * other.number,
        }
    }
}

impl Neg for Whole {
    type Output = Whole;

    ghost can_neg = { λ a. FitsSigned w128 (neg_ℤ a) };

    ghost neg_gives = { λ a c. c ≡ neg_ℤ a };

    fn neg(self) -> Whole {
        Whole {
            number: -self.number,
        }
    }
}

impl Whole {
    /// The sum, or none exactly where it does not fit.
    pub fn checked_add(self, other: Whole) -> Option<Whole>
        ensures { SomeIff result (FitsSigned w128 (self +ℤ other)) (self +ℤ other) }
    {
        match self.number.checked_add(other.number) {
            Some(number) => Some(Whole { number }),
            None => None,
        }
    }

    /// The difference, or none exactly where it does not fit.
    pub fn checked_sub(self, other: Whole) -> Option<Whole>
        ensures { SomeIff result (FitsSigned w128 (self -ℤ other)) (self -ℤ other) }
    {
        match self.number.checked_sub(other.number) {
            Some(number) => Some(Whole { number }),
            None => None,
        }
    }

    /// The product, or none exactly where it does not fit.
    pub fn checked_mul(self, other: Whole) -> Option<Whole>
        ensures { SomeIff result (FitsSigned w128 (self *ℤ other)) (self *ℤ other) }
    {
        match self.number.checked_mul(other.number) {
            Some(number) => Some(Whole { number }),
            None => None,
        }
    }

    /// The negation, or none exactly where it does not fit.
    pub fn checked_neg(self) -> Option<Whole>
        ensures { SomeIff result (FitsSigned w128 (neg_ℤ self)) (neg_ℤ self) }
    {
        match self.number.checked_neg() {
            Some(number) => Some(Whole { number }),
            None => None,
        }
    }
}
