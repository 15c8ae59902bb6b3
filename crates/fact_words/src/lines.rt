//! Lines, one for each member of a list.

ghost use Rattle.std.specs.Prelude.{◌≡◌, ◌∷◌, [], OnOk};
ghost use Rattle.flow_facts.specs.Reports.{node_of};
ghost use Rattle.fact_words.specs.Printing.{all_put};
ghost use Rattle.fact_words.specs.Canonical.{begins, a_number, parent_mark, scope_word, fault_word, bound_word};
ghost use Rattle.fact_words.specs.Canonical.{node_marks, scope_marks, fact_marks, event_marks, multiplier_marks};
ghost use Rattle.fact_words.specs.Canonical.{count_bound_marks, path_bound_marks, scale_marks};

use crate::spaced_words::{put_line, put_number, put_whole, put_word};
use domain_core::{Event, ScopeKind, ScopeRow};
use flow_facts::{BoundWord, Fact, NodeLine, RunKind};
use std::alloc::AllocError;

fn put_count(out: &mut Vec<u8>, n: u32) -> Result<(), AllocError>
    ensures { OnOk result (out.new.items ≡ all_put out.old.items (a_number n ∷ [])) }
{
    put_number(out, u64::from(n))
}

// ---- nodes and scopes

pub fn put_node(out: &mut Vec<u8>, n: u64, node: &NodeLine) -> Result<(), AllocError>
    ensures { OnOk result (out.new.items ≡ all_put out.old.items (node_marks n (node_of node.now))) }
{
    put_line(out, b"node")?;
    put_number(out, n)?;
    put_count(out, node.scope)?;
    put_count(out, node.cost)?;
    put_word(out, node.name.as_slice())
}

fn put_parent(out: &mut Vec<u8>, parent: Option<u32>) -> Result<(), AllocError>
    ensures { OnOk result (out.new.items ≡ all_put out.old.items (parent_mark parent ∷ [])) }
{
    match parent {
        None => put_word(out, b"-"),
        Some(scope) => put_count(out, scope),
    }
}

fn scope_word(kind: ScopeKind) -> &'static [u8]
    ensures { result.now ≡ scope_word kind }
{
    match kind {
        ScopeKind::Call => b"call",
        ScopeKind::Loop => b"loop",
    }
}

pub fn put_scope(out: &mut Vec<u8>, n: u64, scope: &ScopeRow) -> Result<(), AllocError>
    ensures { OnOk result (out.new.items ≡ all_put out.old.items (scope_marks n scope.now)) }
{
    put_line(out, b"scope")?;
    put_number(out, n)?;
    put_parent(out, scope.parent)?;
    put_count(out, scope.header)?;
    put_word(out, scope_word(scope.kind))
}

// ---- facts

fn fault_word(kind: RunKind) -> &'static [u8]
    ensures { result.now ≡ fault_word kind }
{
    match kind {
        RunKind::Divide => b"divide",
        RunKind::Uninit => b"uninit",
        RunKind::Mixed => b"mixed",
        RunKind::Bounds => b"bounds",
        RunKind::Dead => b"dead",
        RunKind::Kind => b"kind",
        RunKind::Pointers => b"pointers",
    }
}

// A line of three counts.
fn put_three(out: &mut Vec<u8>, word: &[u8], a: u32, b: u32, c: u32) -> Result<(), AllocError>
    ensures { OnOk result
        (out.new.items ≡ all_put out.old.items (begins word.now ∷ a_number a ∷ a_number b ∷ a_number c ∷ [])) }
{
    put_line(out, word)?;
    put_count(out, a)?;
    put_count(out, b)?;
    put_count(out, c)
}

pub fn put_fact(out: &mut Vec<u8>, fact: &Fact) -> Result<(), AllocError>
    ensures { OnOk result (out.new.items ≡ all_put out.old.items (fact_marks fact.now)) }
{
    match fact {
        Fact::Loop(scope, low, high) => put_three(out, b"loop", *scope, *low, *high),
        Fact::Count(scope, node, low, high) => {
            put_three(out, b"count", *scope, *node, *low)?;
            put_count(out, *high)
        }
        Fact::Dead(node) => {
            put_line(out, b"dead")?;
            put_count(out, *node)
        }
        Fact::Total(node, low, high) => put_three(out, b"total", *node, *low, *high),
        Fact::Pair(scope, first, second) => put_three(out, b"pair", *scope, *first, *second),
        Fact::Alarm(node, kind) => {
            put_line(out, b"alarm")?;
            put_count(out, *node)?;
            put_word(out, fault_word(*kind))
        }
    }
}

// ---- bounds and certificates

pub fn put_count_bound(out: &mut Vec<u8>, bound: u64) -> Result<(), AllocError>
    ensures { OnOk result (out.new.items ≡ all_put out.old.items (count_bound_marks bound)) }
{
    put_line(out, b"count-bound")?;
    put_number(out, bound)
}

fn bound_word(word: BoundWord) -> &'static [u8]
    ensures { result.now ≡ bound_word word }
{
    match word {
        BoundWord::Least => b"least",
        BoundWord::Stopped => b"stopped",
    }
}

pub fn put_path_bound(out: &mut Vec<u8>, bound: u64, word: BoundWord) -> Result<(), AllocError>
    ensures { OnOk result (out.new.items ≡ all_put out.old.items (path_bound_marks (bound, word))) }
{
    put_line(out, b"path-bound")?;
    put_number(out, bound)?;
    put_word(out, bound_word(word))?;
    Ok(())
}

pub fn put_event(out: &mut Vec<u8>, event: &Event) -> Result<(), AllocError>
    ensures { OnOk result (out.new.items ≡ all_put out.old.items (event_marks event.now)) }
{
    match event {
        Event::Step(place) => {
            put_line(out, b"step")?;
            put_count(out, *place)
        }
        Event::Merge(first, second) => {
            put_line(out, b"merge")?;
            put_count(out, *first)?;
            put_count(out, *second)
        }
    }
}

pub fn put_scale(out: &mut Vec<u8>, scale: i128) -> Result<(), AllocError>
    ensures { OnOk result (out.new.items ≡ all_put out.old.items (scale_marks scale)) }
{
    put_line(out, b"scale")?;
    put_whole(out, scale)
}

pub fn put_multiplier(out: &mut Vec<u8>, multiplier: i128) -> Result<(), AllocError>
    ensures { OnOk result (out.new.items ≡ all_put out.old.items (multiplier_marks multiplier)) }
{
    put_line(out, b"mul")?;
    put_whole(out, multiplier)
}
