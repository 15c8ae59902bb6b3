//! What operators give at abstract values.

ghost use Rattle.std.specs.Prelude.{◌≡◌, IfOk, IfSome, IsSome, map};
ghost use Rattle.std.specs.List.{AllZip};
ghost use Rattle.alf_ops.specs.Table.{result_size, operand_sizes};
ghost use Rattle.pointer_rules.specs.AbstractValues.{HasSize, AreAlike};
ghost use Rattle.pointer_rules.specs.Choices.{either_value as either_value_of, united as united_of};
ghost use Rattle.pointer_rules.specs.Choices.{gathered as gathered_of, nothing, at_choice as at_choice_of, applied};
ghost use Rattle.pointer_rules.specs.Covering.{EachSuits};
ghost use Rattle.pointer_rules.specs.ApplyLaws.{EachOf};
ghost use Rattle.pointer_domain.specs.Parts.{parts_of, outcome_of};

use crate::choice::at_choice;
use crate::choices::choices;
use crate::part::Part;
use crate::value::AVal;
use crate::words::at_only_words;
use alf_ops::Op;
use domain_core::{FaultSet, Lattice};
use std::alloc::{AllocError, Global};

/// The join where both are there.
fn either_value(alloc: Global, a: Option<AVal>, b: Option<AVal>) -> Result<Option<AVal>, AllocError>
    requires { IfSome a (λ x. IfSome b (λ y. AreAlike x y)) }
    ensures { IfOk result (λ value. value ≡ either_value_of a b) }
{
    let Some(first) = a else {
        return Ok(b);
    };
    let Some(second) = b else {
        return Ok(Some(first));
    };
    let both = first.join(alloc, &second)?;
    Ok(Some(both))
}

/// What both answer: values joined, faults united.
fn united(
    alloc: Global,
    before: (Option<AVal>, FaultSet),
    answer: (Option<AVal>, FaultSet),
) -> Result<(Option<AVal>, FaultSet), AllocError>
    requires { IfSome before.0 (λ x. IfSome answer.0 (λ y. AreAlike x y)) }
    ensures { IfOk result (λ r. outcome_of r ≡ united_of (outcome_of before) (outcome_of answer)) }
{
    let (first, faults) = before;
    let (second, others) = answer;
    let value = either_value(alloc, first, second)?;
    Ok((value, faults.union(others)))
}

/// What the operator gives at all of the choices.
fn gathered(
    alloc: Global,
    op: Op,
    sizes: &[u32],
    all: &[Vec<Part>],
) -> Result<(Option<AVal>, FaultSet), AllocError>
    requires typed { IsSome (result_size op sizes.now) }
    requires suits { EachOf (EachSuits (operand_sizes op sizes.now)) (map parts_of all.now) }
    ensures { IfOk result
        (λ r. outcome_of r ≡ gathered_of nothing (map (at_choice_of op sizes.now) (map parts_of all.now))) }
{
    let mut so_far = (None, FaultSet::none());
    let mut rest = all;
    while let Some((first, further)) = rest.split_first() {
        let answer = at_choice(alloc, op, sizes, first)?;
        let joined = united(alloc, so_far, answer)?;
        so_far = joined;
        rest = further;
    }
    Ok(so_far)
}

impl AVal {
    /// What the operator gives at each choice of one part for each operand: the join of the values, and
    /// the faults. There is no value exactly where no choice gives one. Choices go by the order of the
    /// parts, the first operand slowest. At words alone it takes no memory.
    pub fn apply(
        alloc: Global,
        op: Op,
        sizes: &[u32],
        args: &[AVal],
    ) -> Result<(Option<AVal>, FaultSet), AllocError>
        requires typed { IsSome (result_size op sizes.now) }
        requires sized { AllZip (λ size v. HasSize v size) (operand_sizes op sizes.now) args.now }
        ensures { IfOk result (λ r. outcome_of r ≡ applied op sizes.now args.now) }
    {
        if let Some(answer) = at_only_words(alloc, op, sizes, args) {
            return Ok(answer);
        }
        let all = choices(alloc, args)?;
        let answer = gathered(alloc, op, sizes, &all)?;
        Ok(answer)
    }
}
