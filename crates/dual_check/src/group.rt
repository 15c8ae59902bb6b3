//! The groups of rows, and the constraints of facts.

ghost use Rattle.std.specs.Prelude.{◌≡◌, ◌++◌, ◌∷◌, [], map, take, All, OnOk, IfOk};
ghost use Rattle.std.specs.List.{flat_map, range_with_len};
ghost use Rattle.domain_core.specs.Outlines.{shape_of};
ghost use Rattle.flow_facts.specs.Facts.{IsAbout};
ghost use Rattle.dual_check.specs.Constraints.{group_of, constraints_of};
ghost use Rattle.dual_check.specs.declared.constraint.Constraint.TheVariants.{Flow};
ghost use Rattle.dual_check.specs.declared.group.Group.TheVariants.{Pairs};

use crate::constraint::Constraint;
use crate::inside::header;
use domain_core::Outline;
use flow_facts::Fact;
use std::alloc::{AllocError, Global};

/// The groups of rows that facts have, in their order.
#[derive(Clone, Copy, Drop)]
pub enum Group {
    /// Of loops.
    Loops,
    /// Of nodes that never occur.
    Deads,
    /// Of counts in a run.
    Totals,
    /// Of nodes that exclude one another.
    Pairs,
    /// Of counts in executions.
    Counts,
}

/// At most 128 pairs have a row.
const MOST_PAIRS: usize = 128;

/// Appends the constraints of a fact in a group.
fn push_fact(
    out: &mut Vec<Constraint>,
    outline: &Outline,
    group: Group,
    fact: Fact,
) -> Result<(), AllocError>
    requires { IsAbout (shape_of outline.now) fact }
    ensures { OnOk result (out.new.items ≡ out.old.items ++ group_of (shape_of outline.now) group fact) }
{
    match (group, fact) {
        (Group::Loops, Fact::Loop(s, low, high)) => {
            let first = header(outline, s);
            out.push(Constraint::Most(s, first, first, high))?;
            out.push(Constraint::Least(s, first, first, low))?;
        }
        (Group::Deads, Fact::Dead(n)) => out.push(Constraint::Limit(n, 0))?,
        (Group::Totals, Fact::Total(n, low, high)) => {
            out.push(Constraint::Limit(n, high))?;
            out.push(Constraint::Demand(n, low))?;
        }
        (Group::Pairs, Fact::Pair(s, a, b)) => {
            out.push(Constraint::Apart(header(outline, s), a, b))?;
        }
        (Group::Counts, Fact::Count(s, n, low, high)) => {
            let first = header(outline, s);
            out.push(Constraint::Most(s, first, n, high))?;
            out.push(Constraint::Least(s, first, n, low))?;
        }
        _ => {}
    }
    Ok(())
}

/// Appends the constraints of all facts in a group.
fn push_group(
    out: &mut Vec<Constraint>,
    outline: &Outline,
    group: Group,
    facts: &[Fact],
) -> Result<(), AllocError>
    requires { All (λ f. IsAbout (shape_of outline.now) f) facts.now }
    ensures { OnOk result
        (out.new.items ≡ out.old.items ++ flat_map (λ f. group_of (shape_of outline.now) group f) facts.now) }
{
    for fact in facts {
        push_fact(out, outline, group, *fact)?;
    }
    Ok(())
}

/// The flows of the nodes.
#[tactic(auto, using(crate::proofs::Made::flows_more))]
fn flows(alloc: Global, nodes: u32) -> Result<Vec<Constraint>, AllocError>
    ensures { IfOk result (λ out. out.items ≡ map (λ n. Flow n) (range_with_len 0 nodes)) }
{
    let mut out = Vec::new(alloc);
    for node in 0..nodes {
        out.push(Constraint::Flow(node))?;
    }
    Ok(out)
}

/// The constraints of the first pairs.
fn first_pairs(
    alloc: Global,
    outline: &Outline,
    facts: &[Fact],
) -> Result<Vec<Constraint>, AllocError>
    requires { All (λ f. IsAbout (shape_of outline.now) f) facts.now }
    ensures { IfOk result
        (λ out. out.items ≡ take 128 (flat_map (λ f. group_of (shape_of outline.now) Pairs f) facts.now)) }
{
    let mut out = Vec::new(alloc);
    push_group(&mut out, outline, Group::Pairs, facts)?;
    out.truncate(MOST_PAIRS);
    Ok(out)
}

/// The constraints of all rows in their order.
#[tactic(auto, using(crate::proofs::Made::constraints_made))]
pub fn constraints(
    alloc: Global,
    outline: &Outline,
    facts: &[Fact],
) -> Result<Vec<Constraint>, AllocError>
    requires { All (λ f. IsAbout (shape_of outline.now) f) facts.now }
    ensures { IfOk result (λ out. out.items ≡ constraints_of (shape_of outline.now) facts.now) }
{
    let mut out = flows(alloc, outline.node_count())?;
    push_group(&mut out, outline, Group::Loops, facts)?;
    push_group(&mut out, outline, Group::Deads, facts)?;
    push_group(&mut out, outline, Group::Totals, facts)?;
    let pairs = first_pairs(alloc, outline, facts)?;
    out.extend_from_slice(&pairs)?;
    push_group(&mut out, outline, Group::Counts, facts)?;
    Ok(out)
}
