//! Positions of places.

ghost use Rattle.std.specs.Prelude.{◌≡◌, ◌<◌, ◌+◌, ◌-◌, ◌^◌, ◌++◌, ◌∷◌, [], ℕ, List, IsTrue, false, Some, length};
ghost use Rattle.std.specs.Prelude.{slice_index, IfOk};
ghost use Rattle.domain_core.specs.Outlines.{LeadsTo, parent_of, shape_of, scopes_around};
ghost use Rattle.domain_core.specs.Executions.{is_header};
ghost use Rattle.worklist_rules.specs.Positions.{position_by, position_of, IsPosition, entered, turn_in};
ghost use Rattle.worklist_rules.specs.Positions.{moved_position};

use crate::numbers::{keeps_outer_numbers, number_after, number_in, rank_of_header};
use crate::place::Position;
use domain_core::Outline;
use std::alloc::{AllocError, Global};

/// The scopes around both nodes are the same.
#[tactic(auto, using(crate::proofs::Placing::same_around))]
fn are_of_one_scope(outline: &Outline, from: u32, to: u32) -> bool
    requires from { from < length outline.now.nodes }
    requires to { to < length outline.now.nodes }
    ensures { IsTrue result → scopes_around (shape_of outline.now) from ≡ scopes_around (shape_of outline.now) to }
{
    outline.node(from).scope == outline.node(to).scope
}

/// The position at a node, from the scopes around it and the numbers that scopes had in the position before.
fn position_after(
    alloc: Global,
    outline: &Outline,
    around: &[u32],
    scopes: &[u32],
    position: &[u32],
    to: u32,
) -> Result<Position, AllocError>
    requires node { to < length outline.now.nodes }
    requires around { around.now ≡ scopes_around (shape_of outline.now) to }
    requires room { (t : ℕ) → turn_in scopes.now position.now t < 2 ^ 32 - 1 }
    ensures { IfOk result
        (λ made. made.items
        ≡ position_by (shape_of outline.now)
        (λ t. entered (shape_of outline.now) to t (turn_in scopes.now position.now t)) to) }
{
    outline.kept();
    let mut made = Position::with_capacity(alloc, 2 * around.len() + 1)?;
    let mut rest = around;
    while let Some((scope, others)) = rest.split_first() {
        made.push(rank_of_header(outline, *scope))?;
        made.push(number_after(outline, to, *scope, number_in(scopes, position, *scope)))?;
        rest = others;
    }
    made.push(outline.node(to).rank)?;
    Ok(made)
}

/// The position at node 0, where runs start.
pub fn first_position(alloc: Global, outline: &Outline) -> Result<Position, AllocError>
    ensures { IfOk result (λ made. made.items ≡ position_of (shape_of outline.now) (0 ∷ [])) }
{
    outline.kept();
    let around = outline.around(alloc, 0)?;
    position_after(alloc, outline, &around, &[], &[], 0)
}

/// The position with this rank at its end.
fn with_rank(position: Position, rank: u32) -> Result<Position, AllocError>
    ensures { IfOk result
        (λ made. (front : List ℕ) (last : ℕ) → position.items ≡ front ++ last ∷ [] → made.items ≡ front ++ rank ∷ []) }
{
    let mut made = position;
    made.pop();
    made.push(rank)?;
    Ok(made)
}

/// The position with one more as its last number, and this rank at its end.
fn with_next(position: Position, rank: u32) -> Result<Position, AllocError>
    requires { (front : List ℕ) (number last : ℕ) → position.items ≡ front ++ number ∷ last ∷ [] → number < 2 ^ 32 - 1 }
    ensures { IfOk result
        (λ made. (front : List ℕ) (number last : ℕ) → position.items ≡ front ++ number ∷ last ∷ []
        → made.items ≡ front ++ (number + 1) ∷ rank ∷ []) }
{
    let mut made = position;
    made.pop();
    let Some(number) = made.pop() else {
        return Ok(made);
    };
    made.push(number + 1)?;
    made.push(rank)?;
    Ok(made)
}

/// The position after an edge between nodes of one scope, around which no scope has another number then.
fn position_beside(
    outline: &Outline,
    from: u32,
    position: Position,
    to: u32,
) -> Result<Position, AllocError>
    requires from { from < length outline.now.nodes }
    requires to { to < length outline.now.nodes }
    requires same { scopes_around (shape_of outline.now) from ≡ scopes_around (shape_of outline.now) to }
    requires outer { (t p : ℕ) → parent_of outline.now.scopes (slice_index (shape_of outline.now).own to) ≡ Some p
        → LeadsTo outline.now.scopes t p → is_header (shape_of outline.now) t to ≡ false }
    requires is { IsPosition (shape_of outline.now) from position.items }
    requires room { (t : ℕ) → turn_in (scopes_around (shape_of outline.now) from) position.items t < 2 ^ 32 - 1 }
    ensures { IfOk result (λ made. made.items ≡ moved_position (shape_of outline.now) from position.items to) }
{
    outline.kept();
    let node = outline.node(to);
    if outline.scope(node.scope).header == to {
        with_next(position, node.rank)
    } else {
        with_rank(position, node.rank)
    }
}

/// The position after an edge.
pub fn position_along(
    alloc: Global,
    outline: &Outline,
    from: u32,
    position: Position,
    to: u32,
) -> Result<Position, AllocError>
    requires from { from < length outline.now.nodes }
    requires to { to < length outline.now.nodes }
    requires is { IsPosition (shape_of outline.now) from position.items }
    requires room { (t : ℕ) → turn_in (scopes_around (shape_of outline.now) from) position.items t < 2 ^ 32 - 1 }
    ensures { IfOk result (λ made. made.items ≡ moved_position (shape_of outline.now) from position.items to) }
{
    if are_of_one_scope(outline, from, to) && keeps_outer_numbers(outline, to) {
        return position_beside(outline, from, position, to);
    }
    let scopes = outline.around(alloc, from)?;
    let around = outline.around(alloc, to)?;
    position_after(alloc, outline, &around, &scopes, &position, to)
}
