//! What the 40 operators give at strided values, line by line of the rows.

ghost use Rattle.std.specs.Prelude.{◌≡◌};

use crate::further_rows::{COMPARISONS, SHIFTS, SIZES};
use crate::rows::{NORMED, PRODUCTS, SUMS};
use crate::strided::value;
use alf_ops::{Op, find, operand, rows, shape};
use domain_core::{Domain, Rel};
use flat_domain::operand_fit as fit;
use interval_congruence::Strided;
use std::alloc::{AllocError, Global};
use std::process::Abort;
use std::test::Fail;

/// The number at this place of a text; 0 where there is none.
fn number(text: &str, place: usize) -> i128 {
    match text.split_whitespace().nth(place) {
        None => 0,
        Some(word) => word.parse::<i128>().unwrap_or(0),
    }
}

/// The operand that a text spells, at this place.
fn operand_value(op: Op, sizes: &[u32], place: u32, text: &str) -> Option<Strided> {
    let size = operand(op, sizes, place)?;
    value(size, number(text, 0), number(text, 1), number(text, 2))
}

/// The sizes that a text spells after the name of an operator.
fn sizes_of(rt: &impl Abort, text: &str) -> ([u32; 3], usize) {
    let (mut sizes, mut written) = ([0u32; 3], 0);
    for word in text.split_whitespace().skip(1) {
        assert!(rt; written < 3, "{text}");
        sizes[written] = word.parse::<u32>().unwrap_or(0);
        written += 1;
    }
    (sizes, written)
}

/// What an operator gives, as the lines tell it.
fn told(alloc: Global, divide: bool, value: Option<Strided>) -> Result<String, AllocError> {
    let divide = u32::from(divide);
    match value {
        None => format!(in alloc; "{divide} none"),
        Some(x) => {
            let (lo, hi, step) = (x.lo(), x.hi(), x.step());
            format!(in alloc; "{divide} {lo} {hi} {step}")
        }
    }
}

/// What the operator of a line gives.
fn applied(rt: &impl Abort, alloc: Global, asked: &str) -> Result<String, AllocError> {
    let row = asked.split(" | ").nth(0).unwrap_or("");
    let op = find(rows(), row.split_whitespace().nth(0).unwrap_or(""));
    let op = op.unwrap_or(Op::CSub);
    let (sizes, written) = sizes_of(rt, row);
    assert!(rt; written <= 3, "{asked}");
    let sizes = &sizes[..written];
    let (mut args, mut given) = ([Strided::every_word(1); 3], 0);
    for text in asked.split(" | ").skip(1) {
        assert!(rt; given < 3, "{asked}");
        let Some(arg) = operand_value(op, sizes, given as u32, text) else {
            return format!(in alloc; "{text} is no operand");
        };
        args[given] = arg;
        given += 1;
    }
    assert!(rt; given <= 3, "{asked}");
    let args = &args[..given];
    assert!(rt;
        shape(op, sizes).is_some() && fit(op, sizes, args),
        "{asked}"
    );
    let answer = Strided::apply(op, sizes, args);
    told(alloc, answer.divide, answer.value)
}

/// Each line of a table comes out.
fn all_come_out(rt: &impl Abort, alloc: Global, table: &str) -> Result<(), Fail> {
    for line in table.lines() {
        let asked = line.split(" = ").nth(0).unwrap_or("");
        let due = line.split(" = ").nth(1).unwrap_or("");
        let answer = applied(rt, alloc, asked)?;
        assert_eq!(rt; answer.as_str(), due, "{asked}");
    }
    Ok(())
}

#[test]
fn numbers_are_moved_into_range(rt: HostRuntime) -> Result<(), Fail> {
    let alloc = rt.alloc();
    for line in NORMED.lines() {
        let asked = line.split(" = ").nth(0).unwrap_or("");
        let due = line.split(" = ").nth(1).unwrap_or("");
        let size = asked.split_whitespace().nth(0).unwrap_or("");
        let size = size.parse::<u32>().unwrap_or(0);
        let (lo, hi, step) = (number(asked, 1), number(asked, 2), number(asked, 3));
        let answer = told(alloc, false, value(size, lo, hi, step))?;
        assert_eq!(&rt; answer.as_str(), due, "{asked}");
    }
    Ok(())
}

/// Whether some word of the first may be in the relation to one of the second, by the bound alone.
fn may_relate<D: Domain + Drop>(rel: Rel, a: &D, b: &D) -> bool
    requires { D.sets.size_of a.now ≡ D.sets.size_of b.now }
{
    a.assume(rel, b).is_some()
}

#[test]
fn relations_are_had_by_the_bound(rt: HostRuntime) -> Result<(), Fail> {
    let (few, all) = (Strided::single(8, 3), Strided::whole(8));
    assert!(&rt;
        may_relate(Rel::ULt, &few, &all) && !may_relate(Rel::ULt, &all, &Strided::single(8, 0))
    );
    assert!(&rt; few.has(3) && !few.has(4) && all.only(256).is_none());
    Ok(())
}

#[test]
fn sums_come_out(rt: HostRuntime) -> Result<(), Fail> {
    all_come_out(&rt, rt.alloc(), SUMS)
}

#[test]
fn products_quotients_and_rests_come_out(rt: HostRuntime) -> Result<(), Fail> {
    all_come_out(&rt, rt.alloc(), PRODUCTS)
}

#[test]
fn shifts_and_bits_come_out(rt: HostRuntime) -> Result<(), Fail> {
    all_come_out(&rt, rt.alloc(), SHIFTS)
}

#[test]
fn comparisons_come_out(rt: HostRuntime) -> Result<(), Fail> {
    all_come_out(&rt, rt.alloc(), COMPARISONS)
}

#[test]
fn other_sizes_and_choices_come_out(rt: HostRuntime) -> Result<(), Fail> {
    all_come_out(&rt, rt.alloc(), SIZES)
}
