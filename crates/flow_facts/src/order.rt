//! The order of facts in a report.

ghost use Rattle.std.specs.Prelude.{◌≡◌, ◌≤◌, ◌↔◌, ◌∷◌, IsTrue, take};
ghost use Rattle.flow_facts.specs.Writable.{IsBefore, kind_place, fault_code, numbers_of};

use crate::{Fact, RunKind};
use std::cmp::Ordering;

/// Whether the first fact's line stands before the second's: by kind, then by its numbers from
/// left to right, a fault counting as its code.
pub fn stands_before(first: &Fact, second: &Fact) -> bool
    ensures { IsTrue result ↔ IsBefore first.now second.now }
{
    let first = key_of(first);
    let second = key_of(second);
    first.numbers[..first.count].cmp(&second.numbers[..second.count]) == Ordering::Less
}

// What a fact is ordered by: the first of these numbers, as many as are counted.
#[derive(Drop)]
struct Key {
    numbers: [u32; 5],
    count: usize,
}

// The place of the fact's kind, and the numbers of its line.
fn key_of(fact: &Fact) -> Key
    ensures few { result.count ≤ 5 }
    ensures numbers { take result.count result.numbers ≡ kind_place fact.now ∷ numbers_of fact.now }
{
    match *fact {
        Fact::Loop(s, low, high) => Key {
            numbers: [0, s, low, high, 0],
            count: 4,
        },
        Fact::Count(s, n, low, high) => Key {
            numbers: [1, s, n, low, high],
            count: 5,
        },
        Fact::Dead(n) => Key {
            numbers: [2, n, 0, 0, 0],
            count: 2,
        },
        Fact::Total(n, low, high) => Key {
            numbers: [3, n, low, high, 0],
            count: 4,
        },
        Fact::Pair(s, a, b) => Key {
            numbers: [4, s, a, b, 0],
            count: 4,
        },
        Fact::Alarm(n, fault) => Key {
            numbers: [5, n, code(fault), 0, 0],
            count: 3,
        },
    }
}

// The number of a fault.
fn code(fault: RunKind) -> u32
    ensures { result ≡ fault_code fault }
{
    match fault {
        RunKind::Divide => 30,
        RunKind::Uninit => 31,
        RunKind::Mixed => 32,
        RunKind::Bounds => 33,
        RunKind::Dead => 34,
        RunKind::Kind => 35,
        RunKind::Pointers => 36,
    }
}
