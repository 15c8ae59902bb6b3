//! What operators give at words alone, without any memory.

ghost use Rattle.std.specs.Prelude.{◌≡◌, ◌≤◌, IfSome, IsSome, take, length, slice_get};
ghost use Rattle.std.specs.List.{AllZip};
ghost use Rattle.alf_ops.specs.Table.{result_size, operand_sizes};
ghost use Rattle.pointer_rules.specs.AbstractValues.{HasSize, Words, alone};
ghost use Rattle.pointer_rules.specs.Choices.{applied};
ghost use Rattle.pointer_domain.specs.Parts.{AreWords, outcome_of};

use crate::choice::words_outcome;
use crate::value::AVal;
use alf_ops::Op;
use domain_core::{Domain, FaultSet};
use interval_congruence::Strided;
use std::alloc::Global;

impl AVal {
    /// Its words, where it has no pointer.
    fn only_words(&self) -> Option<Strided>
        ensures { IfSome result (λ words. self.now ≡ alone (Words words)) }
    {
        if self.at().is_empty() {
            self.int()
        } else {
            None
        }
    }
}

/// The words of the operand at this place, where it has no pointer; a word after the last.
fn words_at(args: &[AVal], place: usize) -> Option<Strided>
    ensures { IfSome result (λ words. IfSome (slice_get args.now place) (λ v. v ≡ alone (Words words))) }
{
    if place < args.len() {
        args[place].only_words()
    } else {
        Some(Strided::one_word(1, 0))
    }
}

/// The words of the operands, where none has a pointer.
fn each_words(args: &[AVal]) -> Option<[Strided; 3]>
    requires { length args.now ≤ 3 }
    ensures { IfSome result (λ words. AreWords args.now (take (length args.now) words)) }
{
    let (first, second, third) = (words_at(args, 0)?, words_at(args, 1)?, words_at(args, 2)?);
    Some([first, second, third])
}

/// What the operator gives at words alone; none where an operand has a pointer.
pub fn at_only_words(
    alloc: Global,
    op: Op,
    sizes: &[u32],
    args: &[AVal],
) -> Option<(Option<AVal>, FaultSet)>
    requires typed { IsSome (result_size op sizes.now) }
    requires sized { AllZip (λ size v. HasSize v size) (operand_sizes op sizes.now) args.now }
    ensures { IfSome result (λ r. outcome_of r ≡ applied op sizes.now args.now) }
{
    let words = each_words(args)?;
    let answer = Strided::apply(op, sizes, &words[..args.len()]);
    Some(words_outcome(alloc, answer))
}
