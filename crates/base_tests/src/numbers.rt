//! Whole numbers and progressions, worked out apart from the program, from lists of numbers where these are few.

use crate::tables::{hold, part};
use progressions::{Pieces, Progression};
use std::alloc::{AllocError, Global};
use std::test::Fail;
use whole_numbers::Whole;

// The number at this place of the words. `MIN` and `MAX` are the least and the greatest one.
fn whole(words: &str, place: usize) -> Whole {
    match part(words, " ", place) {
        "MIN" => Whole::of(i128::MIN),
        "MAX" => Whole::of(i128::MAX),
        word => Whole::of(word.parse::<i128>().unwrap_or(0)),
    }
}

// The greatest common divisor, where neither number is the least one.
#[tactic(auto, using(whole_numbers::specs::GcdLaws::gcd_fits))]
fn divisor(a: Whole, b: Whole) -> Option<Whole> {
    if a.number() == i128::MIN || b.number() == i128::MIN {
        return None;
    }
    Some(a.common_divisor(b))
}

// The number, or `none`.
fn told(alloc: Global, found: Option<Whole>) -> Result<String, AllocError> {
    match found {
        Some(whole) => format!(in alloc; "{}", whole.number()),
        None => String::from_str(alloc, "none"),
    }
}

/// What is told of a number and a divisor above 0.
pub fn quotient_told(alloc: Global, asked: &str) -> Result<String, AllocError> {
    let (number, by) = (whole(asked, 0), whole(asked, 1));
    if !Whole::of(0).below(by) {
        return String::from_str(alloc, "a divisor is not above 0");
    }
    let (quotient, rest) = (number.quotient(by).number(), number.rest(by).number());
    let common = told(alloc, divisor(number, by))?;
    let word = if number.is_multiple_of(by) {
        " multiple"
    } else {
        ""
    };
    format!(in alloc; "{quotient} {rest} {common}{word}")
}

// A number, a divisor above 0, the quotient rounded down, the rest, the greatest common divisor, and whether the number
// is a multiple.
static QUOTIENTS: &str = "\
6 quotient
0 5 => 0 0 5 multiple
2 7 => 0 2 1
-7 18446744073709551617 => -1 18446744073709551610 1
255 3802951800684688204490109616128 => 0 255 3
-5704427701027032306735164424192 12 => -475368975085586025561263702016 0 12 multiple
170141183460469231731687303715884105727 1 => 170141183460469231731687303715884105727 0 1 multiple";

#[test]
fn quotients_are_rounded_down(rt: HostRuntime) -> Result<(), Fail> {
    hold(rt.alloc(), QUOTIENTS)
}

/// What is told of an operation on one number or two, whose result may not fit.
pub fn checked_told(alloc: Global, asked: &str) -> Result<String, AllocError> {
    let (a, b) = (whole(asked, 1), whole(asked, 2));
    let found = match part(asked, " ", 0) {
        "add" => a.checked_add(b),
        "sub" => a.checked_sub(b),
        "mul" => a.checked_mul(b),
        _ => a.checked_neg(),
    };
    told(alloc, found)
}

static CHECKED: &str = "\
6 checked
add MAX 1 => none
sub MIN 1 => none
neg MIN => none
mul MIN -1 => none
neg MAX => -170141183460469231731687303715884105727
add MAX MIN => -1";

#[test]
fn what_does_not_fit_is_none(rt: HostRuntime) -> Result<(), Fail> {
    hold(rt.alloc(), CHECKED)
}

// The progression with the ends and the step that stand from this place on.
fn progression(words: &str, place: usize) -> Progression {
    Progression {
        lo: whole(words, place),
        hi: whole(words, place.saturating_add(1)),
        step: whole(words, place.saturating_add(2)),
    }
}

// The ends and the step of each, or `none`, with a comma between two.
fn spans(alloc: Global, found: &[Option<Progression>]) -> Result<String, AllocError> {
    let mut text = String::new(alloc);
    for (place, one) in found.iter().enumerate() {
        text.push_str(if place > 0 { ", " } else { "" })?;
        match one {
            Some(p) => {
                let (lo, hi, step) = (p.lo.number(), p.hi.number(), p.step.number());
                text.push_str(format!(in alloc; "{lo} {hi} {step}")?.as_str())?;
            }
            None => text.push_str("none")?,
        }
    }
    Ok(text)
}

/// What is told of two progressions.
pub fn sums_told(alloc: Global, asked: &str) -> Result<String, AllocError> {
    let (p, q) = (progression(asked, 0), progression(asked, 3));
    if !p.is_small() || !q.is_small() {
        return String::from_str(alloc, "a progression is not small");
    }
    spans(alloc, &[Some(p.sums(&q)), Some(p.hull(&q))])
}

// Two progressions, each by its ends and its step, and their sums and their hull.
static PAIRS: &str = "\
4 sums
3 24 7 3 24 7 => 6 48 7, 3 24 7
3 24 7 -3 -3 0 => 0 21 7, -3 24 1
-9 -1 4 -7 8 5 => -16 7 1, -9 8 1
0 255 255 0 255 255 => 0 510 255, 0 255 255";

#[test]
fn sums_and_hulls_have_all(rt: HostRuntime) -> Result<(), Fail> {
    hold(rt.alloc(), PAIRS)
}

/// What is told of a progression and a number.
pub fn parts_told(alloc: Global, asked: &str) -> Result<String, AllocError> {
    let (p, number) = (progression(asked, 0), whole(asked, 3));
    if !p.is_small() || !p.is_progression() {
        return String::from_str(alloc, "this is no small progression");
    }
    spans(alloc, &[p.from_least(number), p.up_to(number)])
}

// A progression, a number, the part from the number on, and the part up to it.
static CUT: &str = "\
5 parts
3 24 7 2 => 3 24 7, none
3 24 7 13 => 17 24 7, 3 10 7
3 24 7 24 => 24 24 0, 3 24 7
-9 -1 4 -2 => -1 -1 0, -9 -5 4
-9 -1 4 0 => none, -9 -1 4";

#[test]
fn parts_have_the_numbers_of_a_range(rt: HostRuntime) -> Result<(), Fail> {
    hold(rt.alloc(), CUT)
}

// The signed pieces, where the size and the progression are right for them.
fn pieces(size: u32, p: &Progression) -> Option<Pieces> {
    if size < 1 || size > 64 || !p.is_small() || !p.is_placed(size) {
        return None;
    }
    Some(p.signed_pieces(size))
}

/// What is told of a size and a progression.
pub fn pieces_told(alloc: Global, asked: &str) -> Result<String, AllocError> {
    let size = part(asked, " ", 0).parse::<u32>().unwrap_or(0);
    let Some(pieces) = pieces(size, &progression(asked, 1)) else {
        return String::from_str(alloc, "the progression is not placed");
    };
    spans(alloc, &[pieces.first, pieces.second, pieces.third])
}

// A size, a progression, and its signed pieces.
static SIGNED: &str = "\
5 pieces
1 0 1 1 => 0 0 0, -1 -1 0, none
8 -104 108 106 => -104 108 106, none, none
8 -80 148 38 => -80 110 38, -108 -108 0, none
8 89 301 212 => 89 89 0, 45 45 0, none
63 4611686018427387903 4611686018427387903 0 => 4611686018427387903 4611686018427387903 0, none, none";

#[test]
fn pieces_are_the_numbers_of_one_turn(rt: HostRuntime) -> Result<(), Fail> {
    hold(rt.alloc(), SIGNED)
}
