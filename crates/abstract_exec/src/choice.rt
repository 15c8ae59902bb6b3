//! The event that a policy gives.

ghost use Rattle.std.specs.Prelude.{◌≡◌, ◌<◌, ◌^◌, ℕ, length, Contains, Option, None, Some, Ok, IfOk, IfSome, OnOk};
ghost use Rattle.worklist.specs.Least.{IsFirstLeast, IsNextSame};
ghost use Rattle.domain_core.specs.Outlines.{Shape};
ghost use Rattle.worklist_rules.specs.declared.policy.Policy.{Policy};
ghost use Rattle.worklist_rules.specs.Pools.{Spot, positions_of};
ghost use Rattle.worklist_rules.specs.Policies.{IsChoice};
ghost use Rattle.abstract_exec.specs.Points.{AreMergePoints};

use crate::joins::is_same_position;
use crate::place::Place;
use domain_core::Event;
use std::alloc::AllocError;
use worklist::Line;

/// The next place of the position of the first place of least position.
fn next_same<T: Drop, R: Drop>(
    places: &mut Line<Place<T, R>>,
    first: usize,
) -> Result<Option<usize>, AllocError>
    requires { IsFirstLeast (positions_of places.old) first }
    ensures same { OnOk result (places.new ≡ places.old) }
    ensures none { result ≡ Ok None → (j : ℕ) → IsNextSame (positions_of places.old) first j → ⊥ }
    ensures next { IfOk result (λ found. IfSome found (λ second. IsNextSame (positions_of places.old) first second)) }
{
    if places.len() - first == 1 {
        return Ok(None);
    }
    let farther = places.least_from(first + 1)?;
    let second = first + 1 + farther;
    if is_same_position(places, first, second) {
        Ok(Some(second))
    } else {
        Ok(None)
    }
}

/// The event that is next: a merge of the first place of least position with the next place of the
/// same position, where that is at one of these merge points; else a step of the first.
pub fn next_event<T: Drop, R: Drop>(
    places: &mut Line<Place<T, R>>,
    points: &[bool],
) -> Result<Event, AllocError>
    requires some { 0 < length places.old }
    requires few { length places.old < 2 ^ 32 }
    requires nodes { (spot : Spot T R) → Contains places.old spot → spot.node < length points.now }
    ensures same { OnOk result (places.new ≡ places.old) }
    ensures choice { IfOk result
        (λ event. (o : Shape) (policy : Policy) → AreMergePoints o policy points.now
        → IsChoice o policy places.old event) }
{
    let first = places.first_least();
    if !points[places.at(first).node as usize] {
        return Ok(Event::Step(first as u32));
    }
    match next_same(places, first)? {
        Some(second) => Ok(Event::Merge(first as u32, second as u32)),
        None => Ok(Event::Step(first as u32)),
    }
}
