//! Operators that tell of their operands.

ghost use Rattle.std.specs.Prelude.{◌≡◌};
ghost use Rattle.transfer_rules.specs.Refining.{is_extension as is_extension_of, relation_of as relation_by};
ghost use Rattle.transfer_rules.specs.Refining.{opposite as opposite_of, swapped as swapped_of, rel_at as rel_at_of};

use alf_ops::Op;
use domain_core::Rel;

/// The operator extends a word.
pub(crate) fn is_extension(op: Op) -> bool
    ensures { result ≡ is_extension_of op }
{
    match op {
        Op::SExt => true,
        Op::ZExt => true,
        _ => false,
    }
}

/// The relation of a comparison.
pub(crate) fn relation_of(op: Op) -> Option<Rel>
    ensures { result ≡ relation_by op }
{
    match op {
        Op::Eq => Some(Rel::Eq),
        Op::Neq => Some(Rel::Neq),
        Op::ULt => Some(Rel::ULt),
        Op::ULe => Some(Rel::ULe),
        Op::UGt => Some(Rel::UGt),
        Op::UGe => Some(Rel::UGe),
        Op::SLt => Some(Rel::SLt),
        Op::SLe => Some(Rel::SLe),
        Op::SGt => Some(Rel::SGt),
        Op::SGe => Some(Rel::SGe),
        _ => None,
    }
}

/// The relation that holds where this one does not.
fn opposite(rel: Rel) -> Rel
    ensures { result ≡ opposite_of rel }
{
    match rel {
        Rel::Eq => Rel::Neq,
        Rel::Neq => Rel::Eq,
        Rel::ULt => Rel::UGe,
        Rel::ULe => Rel::UGt,
        Rel::UGt => Rel::ULe,
        Rel::UGe => Rel::ULt,
        Rel::SLt => Rel::SGe,
        Rel::SLe => Rel::SGt,
        Rel::SGt => Rel::SLe,
        Rel::SGe => Rel::SLt,
    }
}

/// The relation with its sides changed.
pub(crate) fn swapped(rel: Rel) -> Rel
    ensures { result ≡ swapped_of rel }
{
    match rel {
        Rel::Eq => Rel::Eq,
        Rel::Neq => Rel::Neq,
        Rel::ULt => Rel::UGt,
        Rel::ULe => Rel::UGe,
        Rel::UGt => Rel::ULt,
        Rel::UGe => Rel::ULe,
        Rel::SLt => Rel::SGt,
        Rel::SLe => Rel::SGe,
        Rel::SGt => Rel::SLt,
        Rel::SGe => Rel::SLe,
    }
}

/// What holds where the comparison gives this bit.
pub(crate) fn rel_at(rel: Rel, bit: u64) -> Rel
    ensures { result ≡ rel_at_of rel bit }
{
    if bit == 0 { opposite(rel) } else { rel }
}
