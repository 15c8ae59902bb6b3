//! The form of a report.

ghost use Rattle.std.specs.Prelude.{◌≡◌, ◌<◌, ◌↔◌, IsTrue, true, false, ℕ, All, IfOk, Some, map, length, replicate};
ghost use Rattle.std.specs.Prelude.{count_by};
ghost use Rattle.domain_core.specs.Outlines.{shape_of, kind_of};
ghost use Rattle.flow_facts.specs.Reports.{node_of, reported};
ghost use Rattle.ipet_rows.specs.Shaped.{FitsOutline};
ghost use Rattle.recorder_rules.specs.LoopRules.{is_loop};
ghost use Rattle.report_soundness.specs.ReportTold.{named_nodes};
ghost use Rattle.report_objections.specs.Shaping.{tells_total, IsShaped};
ghost use Rattle.report_checks.specs.Marks.{total_node as total_node_of, marked_at, marks_if, marked_by};
ghost use Rattle.report_checks.specs.Tests.{is_inner as is_inner_of, fits_outline};

use domain_core::{NodeRow, Outline, ScopeKind, ScopeRow};
use flow_facts::{Fact, NodeLine, Report};
use std::alloc::{AllocError, Global};

// ---- nodes and scopes

// Whether the line is that of the node.
fn is_node(line: &NodeLine, row: &NodeRow) -> bool
    ensures { IsTrue result
        ↔ node_of line.now ≡ record { scope = row.now.scope; cost = row.now.cost; name = row.now.name.items } }
{
    line.scope == row.scope && line.cost == row.cost && line.name.as_slice() == row.name.as_slice()
}

// Whether the lines are those of the nodes.
fn are_nodes(outline: &Outline, lines: &[NodeLine]) -> bool
    ensures { IsTrue result ↔ map node_of lines.now ≡ named_nodes outline.now }
{
    if lines.len() != outline.node_count() as usize {
        return false;
    }
    for n in 0..outline.node_count() {
        if !is_node(&lines[n as usize], outline.node(n)) {
            return false;
        }
    }
    true
}

// Whether both are loops, or both are calls.
fn are_one_kind(first: ScopeKind, second: ScopeKind) -> bool
    ensures { IsTrue result ↔ first ≡ second }
{
    match (first, second) {
        (ScopeKind::Loop, ScopeKind::Loop) => true,
        (ScopeKind::Call, ScopeKind::Call) => true,
        _ => false,
    }
}

// Whether the two are one.
fn is_scope(line: &ScopeRow, row: &ScopeRow) -> bool
    ensures { IsTrue result ↔ line.now ≡ row.now }
{
    line.parent == row.parent && line.header == row.header && are_one_kind(line.kind, row.kind)
}

// Whether the lines are those of the scopes.
fn are_scopes(outline: &Outline, lines: &[ScopeRow]) -> bool
    ensures { IsTrue result ↔ lines.now ≡ outline.now.scopes }
{
    if lines.len() != outline.scope_count() as usize {
        return false;
    }
    for s in 0..outline.scope_count() {
        if !is_scope(&lines[s as usize], outline.scope(s)) {
            return false;
        }
    }
    true
}

// ---- facts

// Whether the scope is a loop.
fn is_loop_at(outline: &Outline, scope: u32) -> bool
    requires { scope < length outline.now.scopes }
    ensures { result ≡ is_loop (kind_of outline.now.scopes scope) }
{
    match outline.scope(scope).kind {
        ScopeKind::Loop => true,
        ScopeKind::Call => false,
    }
}

// Whether the node has this own scope, and is not its header.
fn is_inner(outline: &Outline, scope: u32, node: u32) -> bool
    requires scope { scope < length outline.now.scopes }
    requires node { node < length outline.now.nodes }
    ensures { result ≡ is_inner_of (shape_of outline.now) scope node }
{
    outline.node(node).scope == scope && outline.scope(scope).header != node
}

// Whether what the fact names is there and of the kind that it speaks of.
fn fits(outline: &Outline, fact: &Fact) -> bool
    ensures { result ≡ fits_outline (shape_of outline.now) fact.now }
{
    let nodes = outline.node_count();
    let scopes = outline.scope_count();
    match *fact {
        Fact::Loop(s, _, _) => s < scopes && is_loop_at(outline, s),
        Fact::Count(s, n, _, _) => {
            (s < scopes && is_loop_at(outline, s)) && (n < nodes && is_inner(outline, s, n))
        }
        Fact::Pair(s, a, b) => {
            (s < scopes && a < b)
                && (b < nodes && (is_inner(outline, s, a) && is_inner(outline, s, b)))
        }
        Fact::Dead(n) | Fact::Total(n, _, _) | Fact::Alarm(n, _) => n < nodes,
    }
}

// Whether it is so of all facts.
#[tactic(auto, using(crate::proofs::TestLaws::fits_is, crate::proofs::TestLaws::is_fit))]
fn all_fit(outline: &Outline, facts: &[Fact]) -> bool
    ensures { IsTrue result ↔ All (λ f. FitsOutline (shape_of outline.now) f) facts.now }
{
    for fact in facts {
        if !fits(outline, fact) {
            return false;
        }
    }
    true
}

// The node whose `dead` or `total` line it is, if it is one.
fn total_node(fact: &Fact) -> Option<u32>
    ensures { result ≡ total_node_of fact.now }
{
    match *fact {
        Fact::Dead(node) | Fact::Total(node, _, _) => Some(node),
        _ => None,
    }
}

// Marks the node, if it is there and has no mark; whether it did.
fn mark(marks: &mut [bool], node: u32) -> bool
    ensures { marked_at marks.old (Some node) ≡ marks_if result marks.new }
{
    if node as usize >= marks.len() || marks[node as usize] {
        return false;
    }
    marks[node as usize] = true;
    true
}

// The same of the node of the line, if it names one.
fn mark_line(marks: &mut [bool], fact: &Fact) -> bool
    ensures { marked_at marks.old (total_node_of fact.now) ≡ marks_if result marks.new }
{
    match total_node(fact) {
        None => true,
        Some(node) => mark(marks, node),
    }
}

// The same of all lines, up to the first that does not.
fn mark_lines(marks: &mut [bool], facts: &[Fact]) -> bool
    ensures long { length marks.new ≡ length marks.old }
    ensures marks { marked_by (Some marks.old) facts.now ≡ marks_if result marks.new }
{
    let mut rest = facts;
    while let Some((fact, others)) = rest.split_first() {
        if !mark_line(marks, fact) {
            return false;
        }
        rest = others;
    }
    true
}

// So many nodes, none of them marked.
fn no_marks(alloc: Global, count: u32) -> Result<Vec<bool>, AllocError>
    ensures { IfOk result (λ marks. marks.items ≡ replicate count false) }
{
    vec![in alloc; false; count as usize]
}

// Whether all are marked.
fn are_marked(marks: &[bool]) -> bool
    ensures { IsTrue result ↔ All (λ mark. mark ≡ true) marks.now }
{
    marks.iter().all(|mark| *mark)
}

// Whether each node has one such line.
fn once_each(alloc: Global, outline: &Outline, facts: &[Fact]) -> Result<bool, AllocError>
    requires fit { All (λ f. FitsOutline (shape_of outline.now) f) facts.now }
    ensures { IfOk result
        (λ once. IsTrue once
        ↔ ((n : ℕ) → n < length outline.now.nodes → count_by (λ f. tells_total n f) facts.now ≡ 1)) }
{
    let mut marks = no_marks(alloc, outline.node_count())?;
    if !mark_lines(&mut marks, facts) {
        return Ok(false);
    }
    Ok(are_marked(&marks))
}

/// Whether the report has the form that the outline asks for.
///
/// Goes through the lines once, and takes memory for a mark a node.
pub fn is_shaped(alloc: Global, outline: &Outline, report: &Report) -> Result<bool, AllocError>
    ensures { IfOk result (λ shaped. IsTrue shaped ↔ IsShaped outline.now (reported report.now)) }
{
    if !are_nodes(outline, report.nodes.as_slice()) {
        return Ok(false);
    }
    if !are_scopes(outline, report.scopes.as_slice()) {
        return Ok(false);
    }
    if !all_fit(outline, report.facts.as_slice()) {
        return Ok(false);
    }
    let once = once_each(alloc, outline, report.facts.as_slice())?;
    Ok(once)
}
