//! What is changed at all numbers that have a key.

ghost use Rattle.std.specs.Prelude.{◌≡◌, ℕ, ◌+◌, ◌-◌, ◌^◌, ◌<◌, ◌↔◌, length, Option, None, OnOk, IsTrue, if◌then◌else◌};
ghost use Rattle.std.specs.List.{list_any};
ghost use Rattle.recorder_rules.specs.Spans.{one_more, collected, greatest};
ghost use Rattle.recorder_rules.specs.TotalRules.{span_at, spread_at};
ghost use Rattle.recorder_rules.specs.TallyRules.{key_at, is_at, spread_after};
ghost use Rattle.flow_recorders.specs.Walked.{AreChanged, HasWide};

use crate::chains::Chains;
use crate::span_list::SpanList;
use crate::spans::with_span;
use std::alloc::{AllocError, Global};

/// Collects the spans of the numbers of a scope.
fn collect_scope(chains: &Chains, scope: u32, spans: &SpanList, spreads: &mut [Option<(u32, u32)>])
    requires keys { length chains.now ≡ length spreads.old }
    requires spans { length spans.now ≡ length spreads.old }
    ensures { AreChanged chains.now scope (λ j. collected (spread_at spreads.old j) (span_at spans.now j)) None
        spreads.old spreads.new }
{
    let mut i = chains.first_of(scope);
    while i < spreads.len() {
        spreads[i] = with_span(spreads[i], spans.at(i));
        i = chains.after(i);
    }
}

/// Lets the numbers of a scope begin anew. It tells whether one of them took more than a byte.
fn reset_scope(chains: &Chains, scope: u32, spans: &mut SpanList) -> bool
    requires { length chains.now ≡ length spans.old }
    ensures same_length { length spans.new ≡ length spans.old }
    ensures reset { AreChanged chains.now scope (λ j. (0, 0)) (0, 0) spans.old spans.new }
    ensures wide { IsTrue result ↔ HasWide chains.now (λ key. is_at key scope) spans.old }
{
    let count = spans.len();
    let mut was_wide = false;
    let mut i = chains.first_of(scope);
    while i < count {
        was_wide |= spans.is_wide(i);
        spans.reset(i);
        i = chains.after(i);
    }
    was_wide
}

/// One visit more of the node, at each number that counts it.
pub fn enter(
    alloc: Global,
    chains: &Chains,
    node: u32,
    spans: &mut SpanList,
) -> Result<(), AllocError>
    requires keys { length chains.now ≡ length spans.old }
    requires room { greatest spans.old < 2 ^ 32 - 1 }
    ensures same_length { OnOk result (length spans.new ≡ length spans.old) }
    ensures entered { OnOk result
        (AreChanged chains.now node (λ j. one_more (span_at spans.old j)) (0, 0) spans.old spans.new) }
{
    let count = spans.len();
    let mut i = chains.first_of(node);
    while i < count {
        spans.visit(alloc, i)?;
        i = chains.after(i);
    }
    Ok(())
}

/// Collects the spans of the numbers of these scopes.
pub fn collect_scopes(
    chains: &Chains,
    scopes: &[u32],
    spans: &SpanList,
    spreads: &mut [Option<(u32, u32)>],
)
    requires keys { length chains.now ≡ length spreads.old }
    requires spans { length spans.now ≡ length spreads.old }
    ensures { (j : ℕ) → j < length spreads.old
        → spread_at spreads.new j
        ≡ spread_after (list_any (λ k. is_at (key_at chains.now j) k) scopes.now) (spread_at spreads.old j)
        (span_at spans.now j) }
{
    for scope in scopes {
        collect_scope(chains, *scope, spans, spreads);
    }
}

/// Lets the numbers of these scopes begin anew. It tells whether one of them took more than a byte.
fn reset_all(chains: &Chains, scopes: &[u32], spans: &mut SpanList) -> bool
    requires { length chains.now ≡ length spans.old }
    ensures same_length { length spans.new ≡ length spans.old }
    ensures reset { (j : ℕ) → j < length spans.old
        → span_at spans.new j
        ≡ (if list_any (λ k. is_at (key_at chains.now j) k) scopes.now then (0, 0) else span_at spans.old j) }
    ensures wide { IsTrue result ↔ HasWide chains.now (λ key. list_any (λ k. is_at key k) scopes.now) spans.old }
{
    let mut was_wide = false;
    for scope in scopes {
        was_wide |= reset_scope(chains, *scope, spans);
    }
    was_wide
}

/// Lets the numbers of these scopes begin anew, and then take the least memory. It looks at all numbers only where one
/// of them had grown past a byte, which takes that many visits.
pub fn reset_scopes(
    alloc: Global,
    chains: &Chains,
    scopes: &[u32],
    spans: &mut SpanList,
) -> Result<(), AllocError>
    requires { length chains.now ≡ length spans.old }
    ensures same_length { OnOk result (length spans.new ≡ length spans.old) }
    ensures reset { OnOk result
        ((j : ℕ) → j < length spans.old
        → span_at spans.new j
        ≡ (if list_any (λ k. is_at (key_at chains.now j) k) scopes.now then (0, 0) else span_at spans.old j)) }
{
    if reset_all(chains, scopes, spans) {
        spans.settle(alloc)?;
    }
    Ok(())
}
