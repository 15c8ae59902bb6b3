//! What operators give at one part for each operand.

ghost use Rattle.std.specs.Prelude.{◌≡◌, ◌≤◌, ◌||◌, true, IfOk, IsSome, map, take, length};
ghost use Rattle.alf_ops.specs.Table.{result_size, operand_sizes};
ghost use Rattle.strided_rules.specs.Domains.{applied as applied_words};
ghost use Rattle.pointer_rules.specs.AbstractValues.{numbers_of};
ghost use Rattle.pointer_rules.specs.Choices.{alternative_at, divided as divided_of, words_outcome as words_outcome_of};
ghost use Rattle.pointer_rules.specs.Choices.{at_words as at_words_of, numbers as numbers_at, by_rule as by_rule_of};
ghost use Rattle.pointer_rules.specs.Choices.{at_choice as at_choice_of, is_place as is_place_of};
ghost use Rattle.pointer_rules.specs.Covering.{EachSuits};
ghost use Rattle.pointer_domain.specs.Parts.{alternative_of, outcome_of};

use crate::part::Part;
use crate::rules::{by_rule, is_place, only_words};
use crate::value::AVal;
use alf_ops::{Op, RunFault};
use domain_core::{Applied, Domain, FaultSet};
use interval_congruence::Strided;
use std::alloc::{AllocError, Global};

/// The part at this place; a word after the last.
fn part_at(chosen: &[Part], place: usize) -> Part
    ensures { alternative_of result ≡ alternative_at (map alternative_of chosen.now) place }
{
    if place < chosen.len() {
        chosen[place]
    } else {
        Part::Int(Strided::one_word(1, 0))
    }
}

/// The words or the offsets of the part.
fn number(part: Part) -> Strided
    ensures { result ≡ numbers_of (alternative_of part) }
{
    match part {
        Part::Int(words) => words,
        Part::At(_, offsets) => offsets,
    }
}

/// The words and offsets of the parts.
fn numbers(chosen: &[Part]) -> [Strided; 3]
    requires { length chosen.now ≤ 3 }
    ensures { take (length chosen.now) result ≡ map numbers_of (map alternative_of chosen.now) }
{
    [
        number(part_at(chosen, 0)),
        number(part_at(chosen, 1)),
        number(part_at(chosen, 2)),
    ]
}

/// What the operator gives at the words and offsets.
fn at_numbers(op: Op, sizes: &[u32], chosen: &[Part]) -> Applied<Strided>
    requires typed { IsSome (result_size op sizes.now) }
    requires suits { EachSuits (operand_sizes op sizes.now) (map alternative_of chosen.now) }
    ensures { result ≡ applied_words op sizes.now (map numbers_of (map alternative_of chosen.now)) }
{
    let numbers = numbers(chosen);
    Strided::apply(op, sizes, &numbers[..chosen.len()])
}

/// The fault of a division by 0, where there is one.
fn divided(divides: bool) -> FaultSet
    ensures { result ≡ divided_of divides }
{
    if divides {
        FaultSet::none().with(RunFault::Divide)
    } else {
        FaultSet::none()
    }
}

/// What an operator gives at words.
pub fn words_outcome(alloc: Global, answer: Applied<Strided>) -> (Option<AVal>, FaultSet)
    ensures { outcome_of result ≡ words_outcome_of answer }
{
    (only_words(alloc, answer.value), divided(answer.divide))
}

/// One of the three is a pointer.
fn some_place(a: Part, b: Part, c: Part) -> bool
    ensures { result
        ≡ (is_place_of (alternative_of a) || is_place_of (alternative_of b) || is_place_of (alternative_of c)) }
{
    is_place(a) || is_place(b) || is_place(c)
}

/// One of the parts is a pointer.
fn some_pointer(chosen: &[Part]) -> bool
    ensures { result
        ≡ (is_place_of (alternative_at (map alternative_of chosen.now) 0) || is_place_of
        (alternative_at (map alternative_of chosen.now) 1) || is_place_of
        (alternative_at (map alternative_of chosen.now) 2)) }
{
    some_place(part_at(chosen, 0), part_at(chosen, 1), part_at(chosen, 2))
}

/// What the operator gives where one of the parts is a pointer.
fn at_places(
    alloc: Global,
    op: Op,
    sizes: &[u32],
    chosen: &[Part],
) -> Result<(Option<AVal>, FaultSet), AllocError>
    requires typed { IsSome (result_size op sizes.now) }
    requires suits { EachSuits (operand_sizes op sizes.now) (map alternative_of chosen.now) }
    requires some { (is_place_of (alternative_at (map alternative_of chosen.now) 0) || is_place_of
        (alternative_at (map alternative_of chosen.now) 1) || is_place_of
        (alternative_at (map alternative_of chosen.now) 2)) ≡ true }
    ensures { IfOk result
        (λ r. outcome_of r
        ≡ by_rule_of op (numbers_at op sizes.now (map alternative_of chosen.now))
        (alternative_at (map alternative_of chosen.now) 0) (alternative_at (map alternative_of chosen.now) 1)
        (alternative_at (map alternative_of chosen.now) 2)) }
{
    let answer = at_numbers(op, sizes, chosen);
    let words = answer.value;
    let a = part_at(chosen, 0);
    let b = part_at(chosen, 1);
    let c = part_at(chosen, 2);
    let outcome = by_rule(alloc, op, words, a, b, c)?;
    Ok(outcome)
}

/// What the operator gives at words.
fn at_words(alloc: Global, op: Op, sizes: &[u32], chosen: &[Part]) -> (Option<AVal>, FaultSet)
    requires typed { IsSome (result_size op sizes.now) }
    requires suits { EachSuits (operand_sizes op sizes.now) (map alternative_of chosen.now) }
    ensures { outcome_of result ≡ at_words_of op sizes.now (map alternative_of chosen.now) }
{
    let answer = at_numbers(op, sizes, chosen);
    words_outcome(alloc, answer)
}

/// What the operator gives at one part for each operand.
pub fn at_choice(
    alloc: Global,
    op: Op,
    sizes: &[u32],
    chosen: &[Part],
) -> Result<(Option<AVal>, FaultSet), AllocError>
    requires typed { IsSome (result_size op sizes.now) }
    requires suits { EachSuits (operand_sizes op sizes.now) (map alternative_of chosen.now) }
    ensures { IfOk result (λ r. outcome_of r ≡ at_choice_of op sizes.now (map alternative_of chosen.now)) }
{
    if some_pointer(chosen) {
        at_places(alloc, op, sizes, chosen)
    } else {
        Ok(at_words(alloc, op, sizes, chosen))
    }
}
