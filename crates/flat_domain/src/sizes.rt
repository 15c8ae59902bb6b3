//! Sets for the operands.

ghost use Rattle.std.specs.Prelude.{◌≡◌, ◌↔◌, ◌+◌, ◌≤◌, ℕ, IsSome, IsTrue, drop, length};
ghost use Rattle.std.specs.List.{AllZip};
ghost use Rattle.alf_ops.specs.Table.{result_size, operand_sizes};
ghost use Rattle.flat_domain.specs.Fits.{sizes_fit};

use crate::set::Flat;
use alf_ops::{Op, operand};

/// A set of words of one size.
pub trait HasSize: Sized {
    /// How many bits its words have.
    ghost bits_of: { Self → ℕ };

    /// How many bits its words have.
    fn bits(&self) -> u32
        ensures { result ≡ bits_of self.now };
}

impl HasSize for Flat {
    ghost bits_of = { λ d. d.size };

    fn bits(&self) -> u32 {
        self.size()
    }
}

/// There is a set of its size for each operand from this place on.
#[tactic(auto, using(alf_ops::specs::OperandLaws::operands_end, alf_ops::specs::OperandLaws::operands_go_on))]
fn fit_from<D: HasSize>(op: Op, sizes: &[u32], place: u32, args: &[D]) -> bool
    requires typed { IsSome (result_size op sizes.now) }
    requires few { place + length args.now ≤ 3 }
    ensures { result ≡ sizes_fit D.bits_of (drop place (operand_sizes op sizes.now)) args.now }
{
    match (operand(op, sizes, place), args.split_first()) {
        (None, None) => true,
        (Some(size), Some((first, others))) => {
            first.bits() == size && fit_from(op, sizes, place + 1, others)
        }
        _ => false,
    }
}

/// Whether there is one set of its size for each operand: the condition of `apply` of a domain.
#[tactic(auto, using(crate::proofs::Fitting::sizes_are_tested, crate::proofs::Fitting::few))]
pub fn fit<D: HasSize>(op: Op, sizes: &[u32], args: &[D]) -> bool
    requires { IsSome (result_size op sizes.now) }
    ensures { IsTrue result ↔ AllZip (λ s d. D.bits_of d ≡ s) (operand_sizes op sizes.now) args.now }
{
    args.len() <= 3 && fit_from(op, sizes, 0, args)
}
