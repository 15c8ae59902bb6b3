//! Products of values.

ghost use Rattle.std.specs.Prelude.{◌≡◌, ◌≤◌, ◌+◌};
ghost use Rattle.progressions.specs.Images.{products as products_of};
ghost use Rattle.strided_rules.specs.Operators.{unsigned_pair as unsigned_pair_of, signed_pair as signed_pair_of};

use crate::value::Strided;
use strided_operators::Products;

impl Strided {
    /// The products of its words and the other's, read unsigned, at both sizes together.
    pub fn u_mul(self, other: Strided) -> Strided
        requires { self.size + other.size ≤ 64 }
        ensures { result ≡ unsigned_pair_of (self.size + other.size) products_of self other }
    {
        self.unsigned_pair(self.size() + other.size(), &Products, other)
    }

    /// The products of its words and the other's, read signed, at both sizes together.
    pub fn s_mul(self, other: Strided) -> Strided
        requires { self.size + other.size ≤ 64 }
        ensures { result ≡ signed_pair_of (self.size + other.size) products_of self other }
    {
        self.signed_pair(self.size() + other.size(), &Products, other)
    }
}
