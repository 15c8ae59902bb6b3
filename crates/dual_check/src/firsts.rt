//! For each node the first row that limits it, and the first column that leads from it, in one walk each.

ghost use Rattle.std.specs.Prelude.{◌≡◌, ◌==◌, ◌<◌, ◌^◌, ℕ, None, Some, IfOk, length, get_or, if◌then◌else◌};
ghost use Rattle.dual_check.specs.Constraints.{is_limit_of};
ghost use Rattle.dual_check.specs.Openings.{or_later, place_of};

use crate::column::Column;
use crate::constraint::Constraint;
use std::alloc::{AllocError, Global};

/// A place for each of so many nodes, without a number.
#[tactic(auto, using(crate::proofs::FirstNumbers::none_more))]
fn no_numbers(alloc: Global, count: u32) -> Result<Vec<Option<u32>>, AllocError>
    ensures { IfOk result (λ firsts. (length firsts.items ≡ count) × ((n : ℕ) → get_or firsts.items n None ≡ None)) }
{
    let mut firsts = Vec::new(alloc);
    for node in 0..count {
        let _ = node;
        firsts.push(None)?;
    }
    Ok(firsts)
}

/// Notes a number at a node that has none.
#[tactic(auto, using(crate::proofs::FirstNumbers::noted, crate::proofs::FirstNumbers::kept, crate::proofs::FirstNumbers::past))]
fn note(firsts: &mut [Option<u32>], node: u32, number: u32)
    ensures count { length firsts.new ≡ length firsts.old }
    ensures firsts { (n : ℕ) → n < length firsts.old
        → get_or firsts.new n None ≡ or_later (get_or firsts.old n None) (if n == node then Some number else None) }
{
    if (node as usize) < firsts.len() {
        if firsts[node as usize].is_none() {
            firsts[node as usize] = Some(number);
        }
    }
}

/// Notes the number of a row at the node that it limits, if that has none.
#[tactic(auto, using(crate::proofs::FirstNumbers::same))]
fn note_limit(firsts: &mut [Option<u32>], constraint: Constraint, number: u32)
    ensures count { length firsts.new ≡ length firsts.old }
    ensures firsts { (n : ℕ) → n < length firsts.old
        → get_or firsts.new n None
        ≡ or_later (get_or firsts.old n None) (if is_limit_of n constraint then Some number else None) }
{
    match constraint {
        Constraint::Limit(node, _) => note(firsts, node, number),
        _ => {}
    }
}

/// For each node the first row that says how often a run leaves it at most.
#[tactic(auto, using(crate::proofs::FirstNumbers::limits_begun, crate::proofs::FirstNumbers::limits_more, crate::proofs::FirstNumbers::limits_all))]
pub fn first_limits(
    alloc: Global,
    nodes: u32,
    constraints: &[Constraint],
) -> Result<Vec<Option<u32>>, AllocError>
    requires { length constraints.now < 2 ^ 32 }
    ensures count { IfOk result (λ firsts. length firsts.items ≡ nodes) }
    ensures firsts { IfOk result
        (λ firsts. (n : ℕ) → n < nodes
        → get_or firsts.items n None ≡ place_of (λ k. is_limit_of n k) 0 constraints.now) }
{
    let mut firsts = no_numbers(alloc, nodes)?;
    let slots = firsts.as_mut_slice();
    let mut rest = constraints;
    let mut number: u32 = 0;
    while let Some((constraint, others)) = rest.split_first() {
        note_limit(slots, *constraint, number);
        number += 1;
        rest = others;
    }
    Ok(firsts)
}

/// For each node the first column that leads from it.
#[tactic(auto, using(crate::proofs::FirstNumbers::columns_begun, crate::proofs::FirstNumbers::columns_more, crate::proofs::FirstNumbers::columns_all))]
pub fn first_columns(
    alloc: Global,
    nodes: u32,
    columns: &[Column],
) -> Result<Vec<Option<u32>>, AllocError>
    requires { length columns.now < 2 ^ 32 }
    ensures count { IfOk result (λ firsts. length firsts.items ≡ nodes) }
    ensures firsts { IfOk result
        (λ firsts. (n : ℕ) → n < nodes → get_or firsts.items n None ≡ place_of (λ c. n == c.from) 0 columns.now) }
{
    let mut firsts = no_numbers(alloc, nodes)?;
    let slots = firsts.as_mut_slice();
    let mut rest = columns;
    let mut number: u32 = 0;
    while let Some((column, others)) = rest.split_first() {
        note(slots, column.from(), number);
        number += 1;
        rest = others;
    }
    Ok(firsts)
}
