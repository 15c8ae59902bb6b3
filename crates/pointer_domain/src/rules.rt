//! What operators give where an operand is a pointer.

ghost use Rattle.std.specs.Prelude.{◌≡◌, IfOk, IfSome, if◌then◌else◌};
ghost use Rattle.strided_rules.specs.Members.{has as has_of};
ghost use Rattle.pointer_rules.specs.AbstractValues.{IsAbstract, AreAlike, alone as alone_of, joined as joined_of};
ghost use Rattle.pointer_rules.specs.Choices.{only_words as only_words_of, tells as tells_of, gives as gives_of};
ghost use Rattle.pointer_rules.specs.Choices.{word as word_of, pointer as pointer_of, sum as sum_of};
ghost use Rattle.pointer_rules.specs.Choices.{difference as difference_of, equality as equality_of, order as order_of};
ghost use Rattle.pointer_rules.specs.Choices.{choice as choice_of, by_rule as by_rule_of, is_place as is_place_of};
ghost use Rattle.pointer_domain.specs.Parts.{alternative_of, outcome_of, SuitsRule};

use crate::part::Part;
use crate::value::AVal;
use alf_ops::{Op, RunFault};
use domain_core::{FaultSet, Lattice};
use interval_congruence::Strided;
use std::alloc::{AllocError, Global};

/// The part is a pointer.
pub fn is_place(part: Part) -> bool
    ensures { result ≡ is_place_of (alternative_of part) }
{
    match part {
        Part::Int(_) => false,
        Part::At(_, _) => true,
    }
}

/// The words alone, if there are some.
pub fn only_words(alloc: Global, words: Option<Strided>) -> Option<AVal>
    ensures { result ≡ only_words_of words }
{
    match words {
        None => None,
        Some(words) => Some(AVal::word(alloc, words)),
    }
}

/// This fault and no value.
fn tells(fault: RunFault) -> (Option<AVal>, FaultSet)
    ensures { outcome_of result ≡ tells_of fault }
{
    (None, FaultSet::none().with(fault))
}

/// This value and no fault.
fn gives(value: AVal) -> (Option<AVal>, FaultSet)
    ensures { outcome_of result ≡ gives_of value }
{
    (Some(value), FaultSet::none())
}

/// These words, if there are some, and no fault.
fn word(alloc: Global, numbers: Option<Strided>) -> (Option<AVal>, FaultSet)
    ensures { outcome_of result ≡ word_of numbers }
{
    (only_words(alloc, numbers), FaultSet::none())
}

/// A pointer to the frame, if there are offsets, and no fault.
fn pointer(
    alloc: Global,
    frame: u32,
    numbers: Option<Strided>,
) -> Result<(Option<AVal>, FaultSet), AllocError>
    requires { IfSome numbers (λ d. d.size ≡ 32) }
    ensures { IfOk result (λ r. outcome_of r ≡ pointer_of frame numbers) }
{
    match numbers {
        None => Ok((None, FaultSet::none())),
        Some(offsets) => {
            let value = AVal::pointer(alloc, frame, offsets)?;
            Ok(gives(value))
        }
    }
}

/// The sum of a pointer and a word is a pointer to the same frame.
fn sum(
    alloc: Global,
    numbers: Option<Strided>,
    a: Part,
    b: Part,
) -> Result<(Option<AVal>, FaultSet), AllocError>
    requires { IfSome numbers (λ d. d.size ≡ 32) }
    ensures { IfOk result (λ r. outcome_of r ≡ sum_of numbers (alternative_of a) (alternative_of b)) }
{
    match (a, b) {
        (Part::At(frame, _), Part::Int(_)) => pointer(alloc, frame, numbers),
        (Part::Int(_), Part::At(frame, _)) => pointer(alloc, frame, numbers),
        (Part::At(_, _), Part::At(_, _)) => Ok(tells(RunFault::Kind)),
        (Part::Int(_), Part::Int(_)) => Ok(tells(RunFault::Kind)),
    }
}

/// A pointer less a word is a pointer to the same frame, and two pointers to one frame give words.
fn difference(
    alloc: Global,
    numbers: Option<Strided>,
    a: Part,
    b: Part,
) -> Result<(Option<AVal>, FaultSet), AllocError>
    requires { IfSome numbers (λ d. d.size ≡ 32) }
    ensures { IfOk result (λ r. outcome_of r ≡ difference_of numbers (alternative_of a) (alternative_of b)) }
{
    match (a, b) {
        (Part::At(frame, _), Part::Int(_)) => pointer(alloc, frame, numbers),
        (Part::At(_, _), Part::At(_, _)) => Ok(order(alloc, numbers, a, b)),
        (Part::Int(_), Part::At(_, _)) => Ok(tells(RunFault::Kind)),
        (Part::Int(_), Part::Int(_)) => Ok(tells(RunFault::Kind)),
    }
}

/// Two pointers to one frame compare offsets, and to different frames they are unequal.
fn equality(
    alloc: Global,
    unequal: u64,
    numbers: Option<Strided>,
    a: Part,
    b: Part,
) -> (Option<AVal>, FaultSet)
    ensures { outcome_of result ≡ equality_of unequal numbers (alternative_of a) (alternative_of b) }
{
    match (a, b) {
        (Part::At(frame, _), Part::At(other, _)) => {
            if frame == other {
                word(alloc, numbers)
            } else {
                word(alloc, Some(Strided::one_word(1, unequal)))
            }
        }
        (Part::At(_, _), Part::Int(_)) => tells(RunFault::Kind),
        (Part::Int(_), Part::At(_, _)) => tells(RunFault::Kind),
        (Part::Int(_), Part::Int(_)) => tells(RunFault::Kind),
    }
}

/// Two pointers to one frame compare offsets.
fn order(alloc: Global, numbers: Option<Strided>, a: Part, b: Part) -> (Option<AVal>, FaultSet)
    ensures { outcome_of result ≡ order_of numbers (alternative_of a) (alternative_of b) }
{
    match (a, b) {
        (Part::At(frame, _), Part::At(other, _)) => {
            if frame == other {
                word(alloc, numbers)
            } else {
                tells(RunFault::Pointers)
            }
        }
        (Part::At(_, _), Part::Int(_)) => tells(RunFault::Kind),
        (Part::Int(_), Part::At(_, _)) => tells(RunFault::Kind),
        (Part::Int(_), Part::Int(_)) => tells(RunFault::Kind),
    }
}

/// The part and no other.
fn alone(alloc: Global, part: Part) -> Result<AVal, AllocError>
    requires { IsAbstract (alone_of (alternative_of part)) }
    ensures { IfOk result (λ value. value ≡ alone_of (alternative_of part)) }
{
    match part {
        Part::Int(words) => Ok(AVal::word(alloc, words)),
        Part::At(frame, offsets) => AVal::pointer(alloc, frame, offsets),
    }
}

/// The first value where the bit may be 1, and the second where it may be 0.
fn chosen(alloc: Global, bit: Strided, a: Part, b: Part) -> Result<AVal, AllocError>
    requires { AreAlike (alone_of (alternative_of a)) (alone_of (alternative_of b)) }
    ensures { IfOk result
        (λ value. value
        ≡ (if has_of bit 1
        then (if has_of bit 0 then joined_of (alone_of (alternative_of a)) (alone_of (alternative_of b)) else alone_of
        (alternative_of a)) else alone_of (alternative_of b))) }
{
    if !bit.has(1) {
        return alone(alloc, b);
    }
    let first = alone(alloc, a)?;
    if !bit.has(0) {
        return Ok(first);
    }
    let second = alone(alloc, b)?;
    first.join(alloc, &second)
}

/// Either value may be a pointer, the bit may not.
fn choice(alloc: Global, c: Part, a: Part, b: Part) -> Result<(Option<AVal>, FaultSet), AllocError>
    requires { AreAlike (alone_of (alternative_of a)) (alone_of (alternative_of b)) }
    ensures { IfOk result (λ r. outcome_of r ≡ choice_of (alternative_of c) (alternative_of a) (alternative_of b)) }
{
    match c {
        Part::Int(bit) => {
            let value = chosen(alloc, bit, a, b)?;
            Ok(gives(value))
        }
        Part::At(_, _) => Ok(tells(RunFault::Kind)),
    }
}

/// What the operator gives where an operand is a pointer. The words are those that it gives at words
/// and offsets.
pub fn by_rule(
    alloc: Global,
    op: Op,
    numbers: Option<Strided>,
    a: Part,
    b: Part,
    c: Part,
) -> Result<(Option<AVal>, FaultSet), AllocError>
    requires { SuitsRule op numbers (alternative_of b) (alternative_of c) }
    ensures { IfOk result
        (λ r. outcome_of r ≡ by_rule_of op numbers (alternative_of a) (alternative_of b) (alternative_of c)) }
{
    match op {
        Op::Add => {
            if is_place(c) {
                Ok(tells(RunFault::Kind))
            } else {
                sum(alloc, numbers, a, b)
            }
        }
        Op::Sub => {
            if is_place(c) {
                Ok(tells(RunFault::Kind))
            } else {
                difference(alloc, numbers, a, b)
            }
        }
        Op::Eq => Ok(equality(alloc, 0, numbers, a, b)),
        Op::Neq => Ok(equality(alloc, 1, numbers, a, b)),
        Op::ULt => Ok(order(alloc, numbers, a, b)),
        Op::ULe => Ok(order(alloc, numbers, a, b)),
        Op::UGt => Ok(order(alloc, numbers, a, b)),
        Op::UGe => Ok(order(alloc, numbers, a, b)),
        Op::If => choice(alloc, a, b, c),
        _ => Ok(tells(RunFault::Kind)),
    }
}
