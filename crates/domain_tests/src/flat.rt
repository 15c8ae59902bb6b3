//! Sets of one word, or of every word. In a table a set is its word, or `*` for every word of the
//! size, and `none` stands where an answer has no value.

ghost use Rattle.std.specs.Prelude.{◌≡◌, IfOk};
ghost use Rattle.domain_core.specs.WordSets.{IsWordSize};

use alf_ops::{Op, find, operand, rows, shape};
use domain_core::{Domain, Lattice, Rel};
use flat_domain::{Flat, fit};
use std::alloc::{AllocError, Global};
use std::process::Abort;
use std::test::Fail;

// The set that a word of a table stands for.
fn set(size: u32, word: &str) -> Flat
    requires { IsWordSize size }
    ensures { result.size ≡ size }
{
    match word.parse::<u64>() {
        Ok(bits) if size == 64 || bits < 1 << size => Flat::single(size, bits),
        _ => Flat::whole(size),
    }
}

// The same, where the size may be none.
fn operand_set(op: Op, sizes: &[u32], place: u32, word: &str) -> Flat {
    match operand(op, sizes, place) {
        Some(size) if 1 <= size && size <= 64 => set(size, word),
        _ => Flat::whole(1),
    }
}

// A set in the words of a table.
fn told(alloc: Global, set: Option<Flat>) -> Result<String, AllocError> {
    match set {
        None => String::from_str(alloc, "none"),
        Some(set) => match set.word() {
            None => String::from_str(alloc, "*"),
            Some(word) => format!(in alloc; "{word}"),
        },
    }
}

// What an operator gives: its name and its sizes, and its operands.
fn applied(rt: &impl Abort, alloc: Global, row: &str, words: &str) -> Result<String, AllocError> {
    let mut row = row.split_whitespace();
    let op = find(rows(), row.next().unwrap_or("")).unwrap_or(Op::Neg);
    let (mut sizes, mut written) = ([0u32; 3], 0);
    for word in row {
        assert!(rt; written < 3);
        sizes[written] = word.parse::<u32>().unwrap_or(0);
        written += 1;
    }
    assert!(rt; written <= 3);
    let sizes = &sizes[..written];
    let (mut args, mut given) = ([Flat::whole(1); 3], 0);
    for word in words.split_whitespace() {
        assert!(rt; given < 3);
        args[given] = operand_set(op, sizes, given as u32, word);
        given += 1;
    }
    assert!(rt; given <= 3);
    let args = &args[..given];
    assert!(rt;
        shape(op, sizes).is_some() && fit(op, sizes, args),
        "{words}"
    );
    let answer = Flat::apply(op, sizes, args);
    let value = told(alloc, answer.value)?;
    let divide = if answer.divide { ", divide" } else { "" };
    format!(in alloc; "{value}{divide}")
}

// An operator with its sizes, its operands, and what it gives.
static APPLIED: [(&str, &str, &str); 16] = [
    ("add 8", "250 10 1", "5"),
    ("add 8", "250 * 1", "*"),
    ("add 8", "250 10 *", "*"),
    ("neg 64", "1", "18446744073709551615"),
    ("u_div 8 8", "200 7", "28"),
    ("u_div 8 8", "200 *", "*, divide"),
    ("u_div 8 8", "* 7", "*"),
    ("u_div 8 8", "* 0", "none, divide"),
    ("s_mod 8 8", "* *", "*, divide"),
    ("u_mod 8 16", "200 0", "none, divide"),
    ("s_lt 8", "255 1", "1"),
    ("s_lt 8", "* 1", "*"),
    ("conc 8 8", "1 2", "258"),
    ("if 8", "1 4 *", "*"),
    ("select 16 4 7", "4660", "3"),
    (
        "u_mul 32 32",
        "4294967295 4294967295",
        "18446744065119617025",
    ),
];

#[test]
fn an_operator_gives_a_word_where_each_operand_is_one(rt: HostRuntime) -> Result<(), Fail> {
    for (row, words, due) in &APPLIED {
        let answer = applied(&rt, rt.alloc(), row, words)?;
        assert_eq!(&rt; answer.as_str(), *due, "{row} {words}");
    }
    Ok(())
}

// Two sets of 8 bits, and their join.
static JOINED: [(&str, &str, &str); 5] = [
    ("7", "7", "7"),
    ("7", "8", "*"),
    ("7", "*", "*"),
    ("*", "7", "*"),
    ("*", "*", "*"),
];

// A join, by the bound alone.
fn joined<D: Lattice>(alloc: Global, a: &D, b: &D) -> Result<D, AllocError>
    requires { D.order.alike a.now b.now }
    ensures { IfOk result (λ value. value ≡ D.order.joined a.now b.now) }
{
    a.join(alloc, b)
}

#[test]
fn a_join_keeps_a_word_that_both_sides_are(rt: HostRuntime) -> Result<(), Fail> {
    let alloc = rt.alloc();
    for (a, b, due) in &JOINED {
        let answer = joined(alloc, &set(8, a), &set(8, b))?;
        assert_eq!(&rt;
            told(alloc, Some(answer.copy(alloc)?))?.as_str(),
            *due,
            "{a} {b}"
        );
    }
    Ok(())
}

#[test]
fn a_relation_keeps_what_may_stand_in_it(rt: HostRuntime) -> Result<(), Fail> {
    let (low, high, all) = (Flat::single(8, 255), Flat::single(8, 1), Flat::whole(8));
    assert_eq!(&rt; low.assume(Rel::SLt, &high), Some(low));
    assert_eq!(&rt; low.assume(Rel::ULt, &high), None);
    assert_eq!(&rt; low.assume(Rel::Eq, &all), Some(low));
    assert_eq!(&rt; all.assume(Rel::Eq, &low), Some(all));
    assert_eq!(&rt; low.assume(Rel::Neq, &low), None);
    Ok(())
}

#[test]
fn a_set_has_its_words(rt: HostRuntime) -> Result<(), Fail> {
    let (one, all, widest) = (Flat::single(8, 7), Flat::whole(8), Flat::whole(64));
    assert!(&rt;
        one.has(7) && !one.has(8) && all.has(255) && !all.has(256) && widest.has(u64::MAX)
    );
    assert_eq!(&rt; one.only(7), Some(one));
    assert_eq!(&rt; one.only(8), None);
    assert_eq!(&rt; all.only(7), Some(one));
    assert_eq!(&rt; all.only(256), None);
    Ok(())
}
