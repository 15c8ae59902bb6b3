//! Operators at words and pointers, by rows that were worked out by hand.
//!
//! A row has the operator, three operands, the size of the result, its value and its faults. A value has
//! one part or two, joined by `|`: a word, or a frame and an offset in it, as `1@4`.

ghost use Rattle.std.specs.Prelude.{IfOk};
ghost use Rattle.domain_core.specs.WordSets.{IsWordSize};
ghost use Rattle.pointer_rules.specs.AbstractValues.{HasSize};

use alf_ops::{Op, RunFault, find, rows};
use domain_core::{FaultSet, Lattice};
use interval_congruence::Strided;
use pointer_domain::AVal;
use std::alloc::{AllocError, Global};
use std::test::Fail;

static ROWS: &str = "\
add => 1@4 => 8 => 0 => 32 => 1@12 => none
add => 8 => 1@4 => 1 => 32 => 1@13 => none
add => 1@4 => 1@8 => 0 => 32 => none => kind
add => 1@4 => 2@8 => 0 => 32 => none => kind
add => 8|1@4 => 8 => 0 => 32 => 16|1@12 => none
add => 8|1@4 => 8|1@4 => 0 => 32 => 16|1@12 => kind
add => 1@4|2@8 => 4 => 0 => 32 => 1@8|2@12 => none
sub => 1@12 => 4 => 1 => 32 => 1@8 => none
sub => 1@12 => 1@4 => 1 => 32 => 8 => none
sub => 1@12 => 2@4 => 1 => 32 => none => pointers
sub => 4 => 1@4 => 1 => 32 => none => kind
sub => 12|1@12 => 4 => 1 => 32 => 8|1@8 => none
sub => 12|1@12 => 1@4 => 1 => 32 => 8 => kind
sub => 1@12|2@12 => 1@4 => 1 => 32 => 8 => pointers
eq => 1@4 => 1@4 => 0 => 1 => 1 => none
eq => 1@4 => 1@8 => 0 => 1 => 0 => none
eq => 1@4 => 2@4 => 0 => 1 => 0 => none
eq => 1@4 => 4 => 0 => 1 => none => kind
eq => 4 => 1@4 => 0 => 1 => none => kind
neq => 1@4 => 1@4 => 0 => 1 => 0 => none
neq => 1@4 => 2@4 => 0 => 1 => 1 => none
neq => 4 => 1@4 => 0 => 1 => none => kind
neq => 4|1@4 => 1@4 => 0 => 1 => 0 => kind
u_lt => 1@4 => 1@8 => 0 => 1 => 1 => none
u_lt => 1@4 => 2@8 => 0 => 1 => none => pointers
u_lt => 4 => 1@8 => 0 => 1 => none => kind
u_lt => 1@8 => 4 => 0 => 1 => none => kind
u_le => 1@8 => 1@8 => 0 => 1 => 1 => none
u_le => 1@4 => 2@8 => 0 => 1 => none => pointers
u_le => 4 => 1@8 => 0 => 1 => none => kind
u_gt => 1@4 => 1@8 => 0 => 1 => 0 => none
u_gt => 1@4 => 2@8 => 0 => 1 => none => pointers
u_gt => 1@4 => 8 => 0 => 1 => none => kind
u_ge => 1@8 => 1@4 => 0 => 1 => 1 => none
u_ge => 1@4|2@4 => 1@8 => 0 => 1 => 0 => pointers
u_ge => 4 => 1@8 => 0 => 1 => none => kind
u_div => 8 => 0|1@4 => 0 => 32 => none => divide kind
u_div => 8|1@4 => 4 => 0 => 32 => 2 => kind
u_div => 8 => 4 => 0 => 32 => 2 => none
neg => 4|1@4 => 0 => 0 => 32 => 4294967292 => kind
if => 1@4 => 2@8 => 0|1 => 32 => 1@4|2@8 => none
if => 8 => 1@4 => 0|1 => 32 => 8|1@4 => none
if => 1@4 => 8 => 1 => 32 => 1@4 => none
if => 1@4 => 8 => 0 => 32 => 8 => none
";

fn field(line: &str, place: usize) -> &str {
    line.split(" => ").nth(place).unwrap_or("")
}

fn number(text: &str) -> u64 {
    text.parse::<u64>().unwrap_or(0)
}

fn frame(text: &str) -> u32 {
    text.parse::<u32>().unwrap_or(0)
}

/// One part of a value.
fn part(alloc: Global, size: u32, text: &str) -> Result<AVal, AllocError>
    requires { IsWordSize size }
    ensures { IfOk result (λ value. HasSize value size) }
{
    let first = text.split("@").nth(0).unwrap_or("");
    match text.split("@").nth(1) {
        Some(offset) if size == 32 => {
            AVal::pointer(alloc, frame(first), Strided::one_word(32, number(offset)))
        }
        _ => Ok(AVal::word(alloc, Strided::one_word(size, number(first)))),
    }
}

/// The join of two values.
fn both(alloc: Global, size: u32, a: &AVal, b: &AVal) -> Result<AVal, AllocError>
    requires a { HasSize a.now size }
    requires b { HasSize b.now size }
    ensures { IfOk result (λ value. HasSize value size) }
{
    let _places = a.at();
    let _others = b.at();
    let _ = size;
    let value = a.join(alloc, b)?;
    Ok(value)
}

/// A value of one part or two.
fn value(alloc: Global, size: u32, text: &str) -> Result<AVal, AllocError>
    requires { IsWordSize size }
    ensures { IfOk result (λ value. HasSize value size) }
{
    let first = part(alloc, size, text.split("|").nth(0).unwrap_or(""))?;
    match text.split("|").nth(1) {
        None => Ok(first),
        Some(second) => {
            let second = part(alloc, size, second)?;
            both(alloc, size, &first, &second)
        }
    }
}

/// What an operator gives that has a bit beside two operands.
fn with_bit(
    alloc: Global,
    op: Op,
    a: AVal,
    b: AVal,
    bit: AVal,
) -> Result<(Option<AVal>, FaultSet), AllocError>
    requires a { HasSize a 32 }
    requires b { HasSize b 32 }
    requires bit { HasSize bit 1 }
{
    match op {
        Op::Add => AVal::apply(alloc, Op::Add, &[32], &[a, b, bit]),
        Op::Sub => AVal::apply(alloc, Op::Sub, &[32], &[a, b, bit]),
        _ => AVal::apply(alloc, Op::If, &[32], &[bit, a, b]),
    }
}

/// What an operator gives at two operands.
fn at_two(alloc: Global, op: Op, a: AVal, b: AVal) -> Result<(Option<AVal>, FaultSet), AllocError>
    requires a { HasSize a 32 }
    requires b { HasSize b 32 }
{
    match op {
        Op::Eq => AVal::apply(alloc, Op::Eq, &[32], &[a, b]),
        Op::Neq => AVal::apply(alloc, Op::Neq, &[32], &[a, b]),
        Op::ULt => AVal::apply(alloc, Op::ULt, &[32], &[a, b]),
        Op::ULe => AVal::apply(alloc, Op::ULe, &[32], &[a, b]),
        Op::UGt => AVal::apply(alloc, Op::UGt, &[32], &[a, b]),
        Op::UGe => AVal::apply(alloc, Op::UGe, &[32], &[a, b]),
        Op::UDiv => AVal::apply(alloc, Op::UDiv, &[32, 32], &[a, b]),
        _ => AVal::apply(alloc, Op::Neg, &[32], &[a]),
    }
}

/// What the operator of a row gives.
fn applied(alloc: Global, line: &str) -> Result<(Option<AVal>, FaultSet), AllocError> {
    let op = find(rows(), field(line, 0)).unwrap_or(Op::Neg);
    let a = value(alloc, 32, field(line, 1))?;
    let b = value(alloc, 32, field(line, 2))?;
    let bit = value(alloc, 1, field(line, 3))?;
    match op {
        Op::Add | Op::Sub | Op::If => with_bit(alloc, op, a, b, bit),
        _ => at_two(alloc, op, a, b),
    }
}

/// The faults of a row.
fn faults(text: &str) -> FaultSet {
    let mut set = FaultSet::none();
    if text.contains("divide") {
        set = set.with(RunFault::Divide);
    }
    if text.contains("kind") {
        set = set.with(RunFault::Kind);
    }
    if text.contains("pointers") {
        set = set.with(RunFault::Pointers);
    }
    set
}

/// The value is a copy of the one that the row has, or there is none in both.
fn is_wanted(alloc: Global, found: &Option<AVal>, line: &str) -> Result<bool, AllocError> {
    let text = field(line, 5);
    let Some(found) = found else {
        return Ok(text == "none");
    };
    let size = if field(line, 4) == "1" { 1 } else { 32 };
    let wanted = value(alloc, size, text)?;
    let copy = wanted.copy(alloc)?;
    Ok(text != "none" && found.is_same(&copy))
}

#[test]
fn operators_give_what_the_rules_say(rt: HostRuntime) -> Result<(), Fail> {
    let alloc = rt.alloc();
    for line in ROWS.lines() {
        let (found, told) = applied(alloc, line)?;
        assert!(rt; is_wanted(alloc, &found, line)?, "{line}: another value");
        assert!(rt; told == faults(field(line, 6)), "{line}: other faults");
    }
    Ok(())
}
