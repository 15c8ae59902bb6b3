//! The operator and the sizes that are written with it.

ghost use Rattle.std.specs.Prelude.{◌≡◌, ◌≤◌, ◌<◌, IsSome, slice_index};
ghost use Rattle.alf_ops.specs.declared.operator.Op.TheVariants.{Select};
ghost use Rattle.alf_ops.specs.Table.{result_size, size_of_result};
ghost use Rattle.alf_ops.specs.Words.{divides as divides_of};
ghost use Rattle.domain_core.specs.WordSets.{IsWordSize};

use alf_ops::{Op, shape};

/// The operator divides.
pub fn divides(op: Op) -> bool
    ensures { result ≡ divides_of op }
{
    matches!(op, Op::UDiv | Op::SDiv | Op::UMod | Op::SMod)
}

/// How many bits the operator's result has.
#[tactic(auto, using(crate::specs::OperatorSizeLaws::result_is_size))]
pub fn size_of(op: Op, sizes: &[u32]) -> u32
    requires { IsSome (result_size op sizes.now) }
    ensures value { result ≡ size_of_result op sizes.now }
    ensures size { IsWordSize result }
{
    shape(op, sizes).unwrap()
}

/// The size that is written at this place, or 0 after the last.
fn size_at(sizes: &[u32], place: usize) -> u32
    ensures { result ≡ slice_index sizes.now place }
{
    if place < sizes.len() { sizes[place] } else { 0 }
}

/// The first and the last place of the bits that `select` takes.
#[tactic(auto, using(crate::proofs::Written::places_written))]
pub fn places(sizes: &[u32]) -> (u32, u32)
    requires { IsSome (result_size Select sizes.now) }
    ensures low { result.0 ≡ slice_index sizes.now 1 }
    ensures high { result.1 ≡ slice_index sizes.now 2 }
    ensures order { result.0 ≤ result.1 }
    ensures within { result.1 < slice_index sizes.now 0 }
{
    (size_at(sizes, 1), size_at(sizes, 2))
}
