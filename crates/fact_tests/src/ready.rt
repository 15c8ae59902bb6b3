//! Whether a path bound may be asked for.

ghost use Rattle.std.specs.Prelude.{◌≡◌, ◌<◌, ◌<ℤ◌, ◌^◌, IsTrue, All, IfOk, IfSome, length, pos, slice_index};
ghost use Rattle.domain_core.specs.Outlines.{shape_of};
ghost use Rattle.flow_facts.specs.Facts.{IsAbout};
ghost use Rattle.dual_check.specs.Openings.{costs_of};
ghost use Rattle.simplex_rules.specs.OutlineOpenings.{AreLimited, IsLimited};
ghost use Rattle.path_lp.specs.Bounding.{opening_sum, told_path_bound};
ghost use Rattle.fact_tests.specs.Low.{IsLow, AreCheap, Limits};

use domain_core::Outline;
use flow_facts::{BoundWord, Fact, Report, is_about};
use path_lp::path_bound;
use std::alloc::{AllocError, Global};

// As great as a cost and a number of visits may be.
const MOST: u32 = 65_535;

/// The path bound, where it may be asked for: `None` where costs or totals are above 65,535, where a fact
/// is not about the outline, or where no fact limits a node.
pub fn ready_bound(
    alloc: Global,
    outline: &Outline,
    report: &Report,
    pivots: u32,
) -> Result<Option<(u64, BoundWord)>, AllocError>
    ensures { IfOk result (λ o. IfSome o (λ b. b ≡ told_path_bound outline.now report.now.facts.items pivots)) }
{
    if !is_ready(outline, &report.facts) {
        return Ok(None);
    }
    let bound = path_bound(alloc, outline, report, pivots)?;
    Ok(Some((bound.value, bound.word)))
}

// Whether `path_bound` may be asked for this outline and these facts.
fn is_ready(outline: &Outline, facts: &[Fact]) -> bool
    ensures about { IsTrue result → All (λ f. IsAbout (shape_of outline.now) f) facts.now }
    ensures limited { IsTrue result → AreLimited (length outline.now.nodes) facts.now }
    ensures room { IsTrue result → opening_sum outline.now facts.now <ℤ pos (2 ^ 64) }
{
    let nodes = outline.node_count();
    if !are_about(outline, facts) || !are_limited(nodes, facts) {
        return false;
    }
    has_room(outline, facts)
}

// Each fact names what is there.
fn are_about(outline: &Outline, facts: &[Fact]) -> bool
    ensures { IsTrue result → All (λ f. IsAbout (shape_of outline.now) f) facts.now }
{
    facts.iter().all(|fact| is_about(fact, outline))
}

// The fact says how often a run leaves the node at most.
fn limits(fact: Fact, node: u32) -> bool
    ensures { IsTrue result → Limits node fact }
{
    match fact {
        Fact::Dead(n) => n == node,
        Fact::Total(n, _, _) => n == node,
        _ => false,
    }
}

// Some fact says how often a run leaves the node at most.
fn is_limited(facts: &[Fact], node: u32) -> bool
    ensures { IsTrue result → IsLimited facts.now node }
{
    for fact in facts {
        if limits(*fact, node) {
            return true;
        }
    }
    false
}

// Of each node some fact says how often a run leaves it at most.
fn are_limited(nodes: u32, facts: &[Fact]) -> bool
    ensures { IsTrue result → AreLimited nodes facts.now }
{
    for node in 0..nodes {
        if !is_limited(facts, node) {
            return false;
        }
    }
    true
}

// The fact tells no greater total.
fn is_low(fact: Fact) -> bool
    ensures { IsTrue result → IsLow fact }
{
    match fact {
        Fact::Total(_, _, high) => high <= MOST,
        _ => true,
    }
}

// No fact tells a greater total.
fn are_low(facts: &[Fact]) -> bool
    ensures { IsTrue result → All IsLow facts.now }
{
    facts.iter().all(|fact| is_low(*fact))
}

// No node costs more.
fn are_cheap(outline: &Outline) -> bool
    ensures { IsTrue result → AreCheap outline.now }
{
    for node in 0..outline.node_count() {
        if MOST < cost_at(outline, node) {
            return false;
        }
    }
    true
}

// What a visit of the node costs.
fn cost_at(outline: &Outline, node: u32) -> u32
    requires { node < length outline.now.nodes }
    ensures { result ≡ slice_index (costs_of outline.now) node }
{
    outline.node(node).cost
}

// The sum over the openings fits 64 bits.
fn has_room(outline: &Outline, facts: &[Fact]) -> bool
    ensures { IsTrue result → opening_sum outline.now facts.now <ℤ pos (2 ^ 64) }
{
    let _ = outline.node_count();
    if !are_low(facts) {
        return false;
    }
    are_cheap(outline)
}
