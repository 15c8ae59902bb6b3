//! Bits selected of a value, and values put one above the other.

ghost use Rattle.std.specs.Prelude.{◌≡◌, ◌≤◌, ◌<◌, ◌+◌};
ghost use Rattle.progressions.specs.Progressions.{full};
ghost use Rattle.strided_rules.specs.Rules.{above as above_of};
ghost use Rattle.strided_rules.specs.Operators.{select as select_of, unsigned_pair as unsigned_pair_of};

use crate::value::Strided;
use strided_operators::{Above, power};

impl Strided {
    /// The bits from `low` to `high` of its words.
    pub fn select(self, low: u32, high: u32) -> Strided
        requires low { low ≤ high }
        requires high { high < self.size }
        ensures { result ≡ select_of low high self }
    {
        self.r_shift_by(low as u64).trunc(high - low + 1)
    }

    /// Its words above the other's, at both sizes together.
    pub fn conc(self, other: Strided) -> Strided
        requires { self.size + other.size ≤ 64 }
        ensures { result ≡ unsigned_pair_of (self.size + other.size) (above_of (full other.size)) self other }
    {
        let rule = Above {
            unit: power(other.size()),
        };
        self.unsigned_pair(self.size() + other.size(), &rule, other)
    }
}
