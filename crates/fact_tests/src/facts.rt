//! Facts and traces in a short notation, and what is told of facts on traces.

use crate::tables::{field, number, part};
use domain_core::Outline;
use exec_toys::outline_of;
use flow_facts::{Fact, RunKind, holds, is_about, stands_before};
use std::alloc::{AllocError, Global};
use std::test::Fail;

// What stands for a word that is misspelt: it is about no node, so no row wants what is told of it.
const MISSPELT: Fact = Fact::Dead(u32::MAX);

// An alarm of the kind with this word.
fn alarm(node: u32, kind: &str) -> Fact {
    match kind {
        "divide" => Fact::Alarm(node, RunKind::Divide),
        "uninit" => Fact::Alarm(node, RunKind::Uninit),
        "mixed" => Fact::Alarm(node, RunKind::Mixed),
        "bounds" => Fact::Alarm(node, RunKind::Bounds),
        "dead" => Fact::Alarm(node, RunKind::Dead),
        "kind" => Fact::Alarm(node, RunKind::Kind),
        "pointers" => Fact::Alarm(node, RunKind::Pointers),
        _ => MISSPELT,
    }
}

// A fact in letters: a loop (`L`), a pair (`P`), a dead node (`D`), an alarm (`A`), a count (`C`) or a total (`T`).
fn fact(words: &str) -> Fact {
    let first = number(part(words, " ", 1));
    let (second, third) = (number(part(words, " ", 2)), number(part(words, " ", 3)));
    match part(words, " ", 0) {
        "L" => Fact::Loop(first, second, third),
        "P" => Fact::Pair(first, second, third),
        "D" => Fact::Dead(first),
        "A" => alarm(first, part(words, " ", 2)),
        "C" => Fact::Count(first, second, third, number(part(words, " ", 4))),
        "T" => Fact::Total(first, second, third),
        _ => MISSPELT,
    }
}

/// The facts of a text, with `, ` between two.
pub fn facts_of(alloc: Global, words: &str) -> Result<Vec<Fact>, AllocError> {
    let mut facts = Vec::new(alloc);
    for part in words.split(", ") {
        facts.push(fact(part))?;
    }
    Ok(facts)
}

// The nodes of a trace, of which `-` has none.
fn nodes_of(alloc: Global, trace: &str) -> Result<Vec<u32>, AllocError> {
    let mut nodes = Vec::new(alloc);
    if trace != "-" {
        for word in trace.split(' ') {
            nodes.push(number(word))?;
        }
    }
    Ok(nodes)
}

// Whether the trace meets the fact; `strange` where a number is not of the outline.
fn judged(fact: &Fact, outline: &Outline, trace: &[u32]) -> &'static str {
    let nodes = outline.node_count();
    if !is_about(fact, outline) || !trace.iter().all(|n| *n < nodes) {
        "strange"
    } else if holds(fact, outline, trace) {
        "met"
    } else {
        "missed"
    }
}

/// What is told of each of the facts on a trace of a program: `met`, `missed`, or `strange` where it names what is not
/// there.
pub fn told_on(alloc: Global, case: &str) -> Result<String, Fail> {
    let outline = outline_of(alloc, field(case, 1))?;
    let nodes = nodes_of(alloc, field(case, 2))?;
    let mut told = String::new(alloc);
    for fact in &facts_of(alloc, field(case, 3))? {
        let word = judged(fact, &outline, &nodes);
        if told.as_str() != word {
            told.push_str(word)?;
        }
    }
    Ok(told)
}

/// How many facts there are, where each stands before those after it and before no other.
pub fn ascending(alloc: Global, case: &str) -> Result<String, AllocError> {
    let facts = facts_of(alloc, field(case, 1))?;
    for (i, first) in facts.iter().enumerate() {
        for (j, second) in facts.iter().enumerate() {
            if stands_before(first, second) != (i < j) {
                return format!(in alloc; "not {i} and {j}");
            }
        }
    }
    format!(in alloc; "{} ascend", facts.len())
}
