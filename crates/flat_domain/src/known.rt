//! What an operator gives where each operand is one word.

ghost use Rattle.std.specs.Prelude.{◌≡◌, ◌<◌, false, IsSome, IfSome, IsTrue, ◌↔◌, ◌+◌, ◌≤◌, slice_get, length, drop};
ghost use Rattle.alf_ops.specs.Table.{result_size, size_of_result, operand_sizes};
ghost use Rattle.alf_ops.specs.Words.{divides as divides_of};
ghost use Rattle.domain_core.specs.WordSets.{HaveSizes};
ghost use Rattle.domain_core.specs.Relations.{operator_of};
ghost use Rattle.flat_domain.specs.Flats.{flat_sets, sizes_fit, IsFlat, word_at as word_at_of};
ghost use Rattle.flat_domain.specs.Flats.{known_word as known_word_of, given as given_of, may_divide as may_divide_of};
ghost use Rattle.flat_domain.specs.Flats.{must_divide as must_divide_of, may_relate as may_relate_of};

use crate::set::Flat;
use alf_ops::{Op, apply, operand, shape};
use domain_core::Rel;

/// The one word of the operand at this place; 0 after the last operand.
fn word_at(args: &[Flat], place: usize) -> Option<u64>
    ensures value { result ≡ word_at_of args.now place }
    ensures flat { IfSome (slice_get args.now place) IsFlat }
{
    if place < args.len() {
        args[place].word()
    } else {
        Some(0)
    }
}

/// There is a set of its size for each operand from this place on.
#[tactic(auto, using(alf_ops::specs::OperandLaws::operands_end, alf_ops::specs::OperandLaws::operands_go_on))]
fn fit_from(op: Op, sizes: &[u32], place: u32, args: &[Flat]) -> bool
    requires typed { IsSome (result_size op sizes.now) }
    requires few { place + length args.now ≤ 3 }
    ensures { result ≡ sizes_fit (drop place (operand_sizes op sizes.now)) args.now }
{
    match (operand(op, sizes, place), args.split_first()) {
        (None, None) => true,
        (Some(size), Some((first, others))) => {
            first.size() == size && fit_from(op, sizes, place + 1, others)
        }
        _ => false,
    }
}

/// Whether there is one set of its size for each operand: the condition of `apply`.
#[tactic(auto, using(crate::proofs::Operands::sizes_are_tested, crate::proofs::Operands::few))]
pub fn fit(op: Op, sizes: &[u32], args: &[Flat]) -> bool
    requires { IsSome (result_size op sizes.now) }
    ensures { IsTrue result ↔ HaveSizes flat_sets (operand_sizes op sizes.now) args.now }
{
    args.len() <= 3 && fit_from(op, sizes, 0, args)
}

/// The operator divides.
fn divides(op: Op) -> bool
    ensures { result ≡ divides_of op }
{
    matches!(op, Op::UDiv | Op::SDiv | Op::UMod | Op::SMod)
}

/// The size of the operator's result.
fn size_of(op: Op, sizes: &[u32]) -> u32
    requires { IsSome (result_size op sizes.now) }
    ensures { result ≡ size_of_result op sizes.now }
{
    shape(op, sizes).unwrap()
}

/// It divides, and the divisor may be 0.
pub fn may_divide(op: Op, args: &[Flat]) -> bool
    ensures { result ≡ may_divide_of op args.now }
{
    divides(op)
        && match word_at(args, 1) {
            Some(word) => word == 0,
            None => true,
        }
}

/// It divides, and the divisor is 0.
pub fn must_divide(op: Op, args: &[Flat]) -> bool
    ensures { result ≡ must_divide_of op args.now }
{
    divides(op) && word_at(args, 1) == Some(0)
}

/// The word of the operator where each operand is one word.
fn known_word(op: Op, sizes: &[u32], args: &[Flat]) -> Option<u64>
    requires typed { IsSome (result_size op sizes.now) }
    requires sized { HaveSizes flat_sets (operand_sizes op sizes.now) args.now }
    requires divisor { must_divide_of op args.now ≡ false }
    ensures { result ≡ known_word_of op sizes.now args.now }
{
    match (word_at(args, 0), word_at(args, 1), word_at(args, 2)) {
        (Some(a), Some(b), Some(c)) => apply(op, sizes, &[a, b, c][..args.len()]).ok(),
        _ => None,
    }
}

/// The word of the operator, or every word of its size.
#[tactic(auto, using(crate::specs::FlatLaws::given_size))]
pub fn given(op: Op, sizes: &[u32], args: &[Flat]) -> Flat
    requires typed { IsSome (result_size op sizes.now) }
    requires sized { HaveSizes flat_sets (operand_sizes op sizes.now) args.now }
    requires divisor { must_divide_of op args.now ≡ false }
    ensures { result ≡ given_of op sizes.now args.now }
{
    let word = known_word(op, sizes, args);
    Flat::new(size_of(op, sizes), word)
}

/// The comparison operator of the relation.
fn comparison(rel: Rel) -> Op
    ensures { result ≡ operator_of rel }
{
    match rel {
        Rel::Eq => Op::Eq,
        Rel::Neq => Op::Neq,
        Rel::ULt => Op::ULt,
        Rel::ULe => Op::ULe,
        Rel::UGt => Op::UGt,
        Rel::UGe => Op::UGe,
        Rel::SLt => Op::SLt,
        Rel::SLe => Op::SLe,
        Rel::SGt => Op::SGt,
        Rel::SGe => Op::SGe,
    }
}

/// The words are not known, or are in the relation.
pub fn may_relate(rel: Rel, a: &Flat, b: &Flat) -> bool
    requires { a.now.size ≡ b.now.size }
    ensures { result ≡ may_relate_of rel a.now.size a.now.word b.now.word }
{
    match (a.word(), b.word()) {
        (Some(x), Some(y)) => matches!(apply(comparison(rel), &[a.size()], &[x, y]), Ok(1)),
        _ => true,
    }
}
