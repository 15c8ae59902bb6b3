//! Operands, and operators at them.

ghost use Rattle.std.specs.Prelude.{◌≡◌, ◌∷◌, [], IfOk, IfSome, IsSome};
ghost use Rattle.std.specs.List.{AllZip};
ghost use Rattle.alf_ops.specs.Table.{result_size, operand_sizes};
ghost use Rattle.pointer_rules.specs.AbstractValues.{HasSize};
ghost use Rattle.transfer_rules.specs.Remains.{all_left, goes_on, with_faults};
ghost use Rattle.transfer_rules.specs.Evaluating.{before as before_rest, operated};
ghost use Rattle.step_statements.specs.Found.{found, founds, one_operand, two_operands, three_operands};

use alf_ops::Op;
use domain_core::FaultSet;
use pointer_domain::AVal;
use std::alloc::{AllocError, Global};

/// No operand.
pub(crate) fn no_operand(alloc: Global) -> (Option<Vec<AVal>>, FaultSet)
    ensures { founds result ≡ all_left [] }
{
    (Some(Vec::new(alloc)), FaultSet::none())
}

/// A value before those of the rest.
fn put_first(
    value: AVal,
    faults: FaultSet,
    rest: (Option<Vec<AVal>>, FaultSet),
) -> Result<(Option<Vec<AVal>>, FaultSet), AllocError>
    ensures { IfOk result (λ answer. founds answer ≡ goes_on (found (Some value, faults)) (before_rest (founds rest))) }
{
    let (values, more) = rest;
    match values {
        None => Ok((None, faults.union(more))),
        Some(values) => {
            let mut all = values;
            all.insert(0, value)?;
            Ok((Some(all), faults.union(more)))
        }
    }
}

/// An operand before the rest; after one without a value nothing is told.
pub(crate) fn before(
    first: (Option<AVal>, FaultSet),
    rest: (Option<Vec<AVal>>, FaultSet),
) -> Result<(Option<Vec<AVal>>, FaultSet), AllocError>
    ensures { IfOk result (λ answer. founds answer ≡ goes_on (found first) (before_rest (founds rest))) }
{
    let (value, faults) = first;
    match value {
        None => Ok((None, faults)),
        Some(value) => put_first(value, faults, rest),
    }
}

/// What an operator gives at values, after these faults.
fn applied(
    alloc: Global,
    op: Op,
    sizes: &[u32],
    args: &[AVal],
    faults: FaultSet,
) -> Result<(Option<AVal>, FaultSet), AllocError>
    requires typed { IsSome (result_size op sizes.now) }
    requires sized { AllZip (λ size v. HasSize v size) (operand_sizes op sizes.now) args.now }
    ensures { IfOk result (λ answer. found answer ≡ with_faults faults (operated op sizes.now args.now)) }
{
    let (value, more) = AVal::apply(alloc, op, sizes, args)?;
    Ok((value, faults.union(more)))
}

/// What an operator gives at one operand.
pub(crate) fn at_one(
    alloc: Global,
    op: Op,
    sizes: &[u32],
    a: (Option<AVal>, FaultSet),
) -> Result<(Option<AVal>, FaultSet), AllocError>
    requires typed { IsSome (result_size op sizes.now) }
    requires sized { IfSome a.0 (λ x. AllZip (λ size v. HasSize v size) (operand_sizes op sizes.now) (x ∷ [])) }
    ensures { IfOk result (λ answer. found answer ≡ goes_on (one_operand (found a)) (operated op sizes.now)) }
{
    let (value, faults) = a;
    let Some(x) = value else {
        return Ok((None, faults));
    };
    applied(alloc, op, sizes, &[x], faults)
}

/// What an operator gives at two operands; after one without a value nothing is told.
pub(crate) fn at_two(
    alloc: Global,
    op: Op,
    sizes: &[u32],
    a: (Option<AVal>, FaultSet),
    b: (Option<AVal>, FaultSet),
) -> Result<(Option<AVal>, FaultSet), AllocError>
    requires typed { IsSome (result_size op sizes.now) }
    requires sized { IfSome a.0
        (λ x. IfSome b.0 (λ y. AllZip (λ size v. HasSize v size) (operand_sizes op sizes.now) (x ∷ y ∷ []))) }
    ensures { IfOk result
        (λ answer. found answer ≡ goes_on (two_operands (found a) (found b)) (operated op sizes.now)) }
{
    let (value, faults) = a;
    let Some(x) = value else {
        return Ok((None, faults));
    };
    let (value, more) = b;
    let both = faults.union(more);
    let Some(y) = value else {
        return Ok((None, both));
    };
    applied(alloc, op, sizes, &[x, y], both)
}

/// What an operator gives at three operands; after one without a value nothing is told.
pub(crate) fn at_three(
    alloc: Global,
    op: Op,
    sizes: &[u32],
    a: (Option<AVal>, FaultSet),
    b: (Option<AVal>, FaultSet),
    c: (Option<AVal>, FaultSet),
) -> Result<(Option<AVal>, FaultSet), AllocError>
    requires typed { IsSome (result_size op sizes.now) }
    requires sized { IfSome a.0
        (λ x. IfSome b.0
        (λ y. IfSome c.0 (λ z. AllZip (λ size v. HasSize v size) (operand_sizes op sizes.now) (x ∷ y ∷ z ∷ [])))) }
    ensures { IfOk result
        (λ answer. found answer ≡ goes_on (three_operands (found a) (found b) (found c)) (operated op sizes.now)) }
{
    let (value, faults) = a;
    let Some(x) = value else {
        return Ok((None, faults));
    };
    let (value, more) = b;
    let both = faults.union(more);
    let Some(y) = value else {
        return Ok((None, both));
    };
    let (value, last) = c;
    let all = both.union(last);
    let Some(z) = value else {
        return Ok((None, all));
    };
    applied(alloc, op, sizes, &[x, y, z], all)
}
