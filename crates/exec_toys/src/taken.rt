//! The ways that numbers take.

ghost use Rattle.std.specs.Prelude.{◌≡◌, ◌++◌, OnOk, IfOk};
ghost use Rattle.exec_toys.specs.Charts.{low_part, high_part, next_if, faults_if, next_of, faults_of};

use crate::{Fork, Span, Way};
use domain_core::{FaultSet, Stepped};
use std::alloc::{AllocError, Global};

/// The numbers below the limit.
fn low_part(span: Span, limit: u32) -> Span
    ensures { result ≡ low_part span limit }
{
    Span {
        least: span.least,
        most: span.most.min(limit.saturating_sub(1)),
    }
}

/// The other numbers.
fn high_part(span: Span, limit: u32) -> Span
    ensures { result ≡ high_part span limit }
{
    Span {
        least: span.least.max(limit),
        most: span.most,
    }
}

/// Adds the successor of the numbers that take a way, if some do.
fn put_next(next: &mut Vec<(u32, Span)>, some: bool, way: Way, span: Span) -> Result<(), AllocError>
    ensures { OnOk result (next.new.items ≡ next.old.items ++ next_if some way span) }
{
    if !some {
        return Ok(());
    }
    match way {
        Way::Goes(to, less) => next.push((to, span.lowered(less)))?,
        Way::Fails(_) => {}
    }
    Ok(())
}

/// The fault with which numbers that take a way end, if some do.
fn fault_on(some: bool, way: Way) -> FaultSet
    ensures { result ≡ faults_if some way }
{
    match way {
        Way::Fails(kind) if some => FaultSet::none().with(kind),
        _ => FaultSet::none(),
    }
}

/// What the numbers do at a fork.
pub fn taken(alloc: Global, fork: Fork, span: Span) -> Result<Stepped<Span>, AllocError>
    ensures next { IfOk result (λ stepped. stepped.next.items ≡ next_of fork span) }
    ensures faults { IfOk result (λ stepped. stepped.faults ≡ faults_of fork span) }
{
    let low = span.least < fork.limit;
    let high = span.most >= fork.limit;
    let mut next = Vec::new(alloc);
    put_next(&mut next, low, fork.below, low_part(span, fork.limit))?;
    put_next(&mut next, high, fork.above, high_part(span, fork.limit))?;
    let faults = fault_on(low, fork.below).union(fault_on(high, fork.above));
    Ok(Stepped { next, faults })
}
