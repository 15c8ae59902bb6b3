//! Quotients and rests.

ghost use Rattle.std.specs.Prelude.{◌≡◌, ◌≢◌, pos, ◌<ℤ◌, unsigned_abs};
ghost use Rattle.std.specs.Int.{w128, int_rem_euclid, int_div_euclid};
ghost use Rattle.std.specs.Int.RustNames.{FitsSigned, int_div};

use crate::number::Whole;

impl Whole {
    /// What is left of it by a divisor above 0, from 0 to below the divisor.
    pub fn rest(self, divisor: Whole) -> Whole
        requires { pos 0 <ℤ divisor }
        ensures { result ≡ int_rem_euclid self divisor }
    {
        Whole {
            number: self.number.rem_euclid(divisor.number),
        }
    }

    /// The quotient by a divisor above 0, rounded down.
    pub fn quotient(self, divisor: Whole) -> Whole
        requires { pos 0 <ℤ divisor }
        ensures { result ≡ int_div_euclid self divisor }
    {
        Whole {
            number: self.number.div_euclid(divisor.number),
        }
    }

    /// The quotient by a divisor other than 0, rounded toward 0.
    pub fn toward_zero(self, divisor: Whole) -> Whole
        requires divisor { divisor ≢ pos 0 }
        requires fits { FitsSigned w128 (int_div self divisor) }
        ensures { result ≡ int_div self divisor }
    {
        Whole {
            number: self.number / divisor.number,
        }
    }

    /// Its size without sign.
    pub fn size(self) -> Whole
        requires { FitsSigned w128 (pos (unsigned_abs self)) }
        ensures { result ≡ pos (unsigned_abs self) }
    {
        Whole {
            number: self.number.unsigned_abs() as i128,
        }
    }
}
